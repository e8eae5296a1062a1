// One item done: its meaning in the state it meets, its finding, and what its act does to the core, to the row method and to the page.
// The core is large: its stack and its seed row stay where they are. What else it holds is handed over as a pen, the seed row is lent, and the deed
// tells what is to be done to the stack. Nothing is refused: an item that is barred gives its finding and changes nothing. A depth that the stack holds
// is asked for, and of a row that the bytes of the seed row from W/8 on are zero.
#![tactic(auto)]

ghost use Rattle.std.specs.Prelude.{◌≡◌, true, ◌≤◌, length, drop};
ghost use Rattle.rules.specs.declared.Core.{Core};
ghost use Rattle.rules.specs.Sound.{all_zero};
ghost use Rattle.rules.specs.Acts.{mean_command, mean};
ghost use Rattle.read_item.specs.Items.{item_in, from_of, to_of};
ghost use Rattle.do_deed.specs.Deeds.{DeedOn};

use do_command::{do_method, do_print, do_valued};
use do_deed::Deed;
use do_row::do_row;
use do_short::do_bytes;
use read_item::Item;
use rules::{Beside, Command, Finding, Page};
use state_pen::Pen;

// A command with its payload.
fn do_command(
    page: &mut [u8],
    g: Page,
    k: Command,
    payload: &[u8],
    p: Pen,
    m: Beside,
    seed: &mut [u8; 600],
) -> Deed
    requires { (p.depth ≤ 20) × (all_zero (drop g.wide seed.old) ≡ true) }
    ensures { DeedOn g (λ (c : Core). mean_command g k payload.now c m) p seed.old page.old result seed.new page.new }
{
    match k {
        Command::Valued(kind, v) => do_valued(g, kind, v, p, m, seed),
        Command::Method(v) => do_method(v, p, m),
        Command::Print(v) => do_print(g, v, payload, p, m),
        Command::Row(v) => do_row(page, g, v, payload, p, m, seed),
        Command::Unknown => Deed::kept(Finding::NotCarried, p, m),
    }
}

// An item as it was read from the stream: a command's payload is a part of the stream.
pub fn do_item(
    page: &mut [u8],
    g: Page,
    s: &[u8],
    i: Item,
    p: Pen,
    m: Beside,
    seed: &mut [u8; 600],
) -> Deed
    requires bounded { (p.depth ≤ 20) × (all_zero (drop g.wide seed.old) ≡ true) }
    requires i_bound { (from_of i ≤ to_of i) × (to_of i ≤ length s.now) }
    ensures { DeedOn g (λ (c : Core). mean g (item_in s.now i) c m) p seed.old page.old result seed.new page.new }
{
    let Item::Command { command, from, to } = i else {
        return do_bytes(g, i, p, m, seed);
    };
    do_command(page, g, command, &s[from..to], p, m, seed)
}
