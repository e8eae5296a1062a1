// Which command the bytes of a sequence name: its first byte, its group and its letter.
// Nothing is refused: bytes that name no command give Unknown.
#![tactic(auto)]

ghost use Rattle.std.specs.Prelude.{◌≡◌};
ghost use Rattle.rules.specs.Commands.{chosen};

use rules::{Command, Kind, Value};

// The command that three bytes name, with its value: Unknown where it is not carried.
#[tactic(auto, unfolding(rules::specs::Commands::chosen, rules::specs::Commands::among))]
pub fn choose(first: u8, group: u8, letter: u8, v: Value) -> Command
    ensures { result ≡ chosen first group letter v }
{
    match (first, group, letter) {
        // The cursor and the side margins.
        (b'&', b'a', b'C') => Command::Valued(Kind::Column, v),
        (b'&', b'a', b'H') => Command::Valued(Kind::DecipointAcross, v),
        (b'&', b'a', b'L') => Command::Valued(Kind::LeftMargin, v),
        (b'&', b'a', b'M') => Command::Valued(Kind::RightMargin, v),
        (b'&', b'a', b'R') => Command::Valued(Kind::Line, v),
        (b'&', b'a', b'V') => Command::Valued(Kind::DecipointDown, v),
        (b'*', b'p', b'X') => Command::Valued(Kind::DotAcross, v),
        (b'*', b'p', b'Y') => Command::Valued(Kind::DotDown, v),
        // The position stack.
        (b'&', b'f', b'S') => Command::Valued(Kind::PushPop, v),
        // Motion across and line termination.
        (b'&', b'k', b'G') => Command::Valued(Kind::Termination, v),
        (b'&', b'k', b'H') => Command::Valued(Kind::Hmi, v),
        // Motion down and the top margin.
        (b'&', b'l', b'C') => Command::Valued(Kind::Vmi, v),
        (b'&', b'l', b'D') => Command::Valued(Kind::LinesPerInch, v),
        (b'&', b'l', b'E') => Command::Valued(Kind::TopMargin, v),
        // Payload printed as text.
        (b'&', b'p', b'X') => Command::Print(v),
        // Raster started and ended, its resolution and its rows.
        (b'*', b'r', b'A') => Command::Valued(Kind::StartRaster, v),
        (b'*', b'r', b'B') => Command::Valued(Kind::EndRaster, v),
        (b'*', b'r', b'C') => Command::Valued(Kind::ResetRaster, v),
        (b'*', b't', b'R') => Command::Valued(Kind::Resolution, v),
        (b'*', b'b', b'M') => Command::Method(v),
        (b'*', b'b', b'W') => Command::Row(v),
        (b'*', b'b', b'Y') => Command::Valued(Kind::SkipRows, v),
        _ => Command::Unknown,
    }
}
