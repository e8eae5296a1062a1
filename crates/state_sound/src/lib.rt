// Paper 01, "Calls refused as a whole": whether a handed state is sound. Any state is taken.
#![tactic(auto)]

ghost use Rattle.std.specs.Prelude.{◌≡◌};
ghost use Rattle.rules.specs.Sound.{in_page, all_in_page, all_free, stack_sound, layout_sound, raster_sound, all_zero, sequence_sound, core_sound, sound};

use rules::{Core, Layout, Page, Raster, Sequence, Spot, State};
use state_page::{in_height, in_width, is_resolution};

// Whether a place lies in the page.
fn in_page(g: Page, p: Spot) -> bool
    ensures { result ≡ in_page g p }
{
    in_width(g, u64::from(p.x)) && in_height(g, u64::from(p.y))
}

// Whether the places on the stack lie in the page.
fn all_in_page(g: Page, places: &[Spot]) -> bool
    ensures { result ≡ all_in_page g places.now }
{
    places.iter().all(|p| in_page(g, *p))
}

// Whether places of the stack are free, 0, 0.
fn all_free(places: &[Spot]) -> bool
    ensures { result ≡ all_free places.now }
{
    places.iter().all(|p| p.x == 0 && p.y == 0)
}

// Whether depth and stack are sound.
#[tactic(auto, unfolding(rules::specs::Sound::stack_sound))]
fn stack_sound(g: Page, depth: usize, stack: [Spot; 20]) -> bool
    ensures { result ≡ stack_sound g depth stack }
{
    depth <= 20 && all_in_page(g, &stack[..depth]) && all_free(&stack[depth..])
}

// Whether margins, motion and line termination are sound.
#[tactic(auto, unfolding(rules::specs::Sound::layout_sound))]
fn layout_sound(g: Page, l: Layout) -> bool
    ensures { result ≡ layout_sound g l }
{
    l.left < l.right
        && in_width(g, u64::from(l.right))
        && in_height(g, u64::from(l.top))
        && l.hmi <= 1966020
        && l.vmi <= 50400
        && l.termination <= 3
}

// Whether resolution and graphics margin are sound.
#[tactic(auto, unfolding(rules::specs::Sound::raster_sound))]
fn raster_sound(g: Page, r: Raster) -> bool
    ensures { result ≡ raster_sound g r }
{
    is_resolution(u32::from(r.resolution)) && in_width(g, u64::from(r.margin))
}

// Whether bytes are zero.
fn all_zero(bytes: &[u8]) -> bool
    ensures { result ≡ all_zero bytes.now }
{
    bytes.iter().all(|b| *b == 0)
}

// Whether an open sequence has a first byte and a group byte that there are.
#[tactic(auto, unfolding(rules::specs::Sound::sequence_sound))]
fn sequence_sound(q: Sequence) -> bool
    ensures { result ≡ sequence_sound q }
{
    matches!(
        q,
        Sequence::Closed
            | Sequence::Open {
                first: 33..=47,
                group: 96..=126
            }
    )
}

// Whether the core is sound.
#[tactic(auto, unfolding(rules::specs::Sound::core_sound, rules::specs::Sound::seed_sound))]
fn core_sound(g: Page, c: Core) -> bool
    ensures { result ≡ core_sound g c }
{
    in_page(g, c.at)
        && layout_sound(g, c.layout)
        && raster_sound(g, c.raster)
        && stack_sound(g, c.depth, c.stack)
        && all_zero(&c.seed[g.wide()..])
}

// Whether the state is sound.
#[tactic(auto, unfolding(rules::specs::Sound::sound))]
pub fn sound(g: Page, t: State) -> bool
    ensures { result ≡ sound g t }
{
    core_sound(g, t.core) && t.beside.method <= 3 && sequence_sound(t.sequence)
}
