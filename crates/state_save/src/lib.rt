// A state kept between calls as bytes at fixed offsets, numbers little-endian, for callers that are not Rattle: written.
// Nothing is refused: what has no room is not written.
#![tactic(auto, using(common::proofs::Writing::written_both))]

ghost use Rattle.std.specs.Prelude.{◌≡◌, [], ◌∷◌, ◌≤◌, length};
ghost use Rattle.std.proofs.lemmas.List.Edits.{sets};
ghost use Rattle.common.specs.Choice.{flagged};
ghost use Rattle.common.specs.Writing.{Written};
ghost use Rattle.state_load.specs.Kept.{four, spot_bytes, stack_bytes, length_bytes, mode_bytes, sequence_bytes, depth_bytes, front_bytes, state_bytes};

use common::Writer;
use rules::{Layout, Raster, Sequence, Spot, State};

// A number in four bytes, the lowest first.
fn put_u32(n: u32, out: &mut Writer)
    ensures { Written out.old (four n) out.new }
{
    out.put_all(&n.to_le_bytes());
}

// A place on the page, in eight bytes.
fn put_spot(p: Spot, out: &mut Writer)
    ensures { Written out.old (spot_bytes p) out.new }
{
    put_u32(p.x, out);
    put_u32(p.y, out);
}

// The lengths, from L to the graphics margin.
fn put_lengths(l: Layout, r: Raster, out: &mut Writer)
    ensures { Written out.old (length_bytes l r) out.new }
{
    put_u32(l.left, out);
    put_u32(l.right, out);
    put_u32(l.top, out);
    put_u32(l.hmi, out);
    put_u32(l.vmi, out);
    put_u32(r.margin, out);
}

// Resolution, line termination and row method.
fn put_modes(resolution: u16, termination: u8, method: u8, out: &mut Writer)
    ensures { Written out.old (mode_bytes resolution termination method) out.new }
{
    out.put_all(&resolution.to_le_bytes());
    out.put(termination);
    out.put(method);
}

// Raster started, page used.
fn put_flags(started: bool, used: bool, out: &mut Writer)
    ensures { Written out.old (flagged started ∷ flagged used ∷ []) out.new }
{
    out.put(u8::from(started));
    out.put(u8::from(used));
}

// The first and the group byte of the open sequence, 0 and 0 for none.
fn put_sequence(q: Sequence, out: &mut Writer)
    ensures { Written out.old (sequence_bytes q) out.new }
{
    match q {
        Sequence::Closed => out.put_all(&[0, 0]),
        Sequence::Open { first, group } => out.put_all(&[first, group]),
    }
}

// The stack's depth, in eight bytes.
fn put_depth(depth: usize, out: &mut Writer)
    ensures { Written out.old (depth_bytes depth) out.new }
{
    out.put_all(&depth.to_le_bytes());
}

// The places of the stack.
fn put_stack(stack: &[Spot], out: &mut Writer)
    requires { out.old.at ≤ length out.old.room.now }
    ensures { Written out.old (stack_bytes stack.now) out.new }
{
    for p in stack {
        put_spot(*p, out);
    }
}

// What stands before the stack.
fn put_front(t: State, out: &mut Writer)
    ensures { Written out.old (front_bytes t) out.new }
{
    let core = t.core;
    put_spot(core.at, out);
    put_lengths(core.layout, core.raster, out);
    put_modes(
        core.raster.resolution,
        core.layout.termination,
        t.beside.method,
        out,
    );
    put_flags(core.raster.started, core.used, out);
    put_sequence(t.sequence, out);
    put_depth(core.depth, out);
}

// A state.
fn put_state(t: State, out: &mut Writer)
    ensures { Written out.old (state_bytes t) out.new }
{
    put_front(t, out);
    put_stack(&t.core.stack, out);
    out.put_all(&t.core.seed);
}

// A state written from the start of the room on, as far as there is room.
pub fn write_state(t: State, room: &mut [u8])
    ensures { room.new ≡ sets room.old 0 (state_bytes t) }
{
    let mut out = Writer { room, at: 0 };
    put_state(t, &mut out);
}
