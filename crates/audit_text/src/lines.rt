//! The lines of a text.
ghost use Rattle.std.specs.Prelude.{◌≡◌, ◌<◌, ◌==◌, ◌++◌, true, false, [], ◌∷◌, length, position, MatchOption, IfSome};
ghost use Rattle.scenario_text.specs.Pieces.{Finds, cut_at, pieces, lines};

/// The place of the first line feed, counted from 0.
fn first_feed(bytes: &[u8]) -> Option<usize>
    ensures { result ≡ position (λ b. b == 10) bytes.now }
{
    bytes.iter().position(|byte| *byte == b'\n')
}

/// The bytes before the first line feed and the bytes behind it, where there is one.
#[tactic(auto, using(scenario_text::proofs::ForCallers::cuts))]
fn cut_line(bytes: &[u8]) -> Option<(&[u8], &[u8])>
    ensures pieces { MatchOption result (pieces 10 bytes.now ≡ bytes.now ∷ []) (λ p. pieces 10 bytes.now ≡ p.0.now ∷ pieces 10 p.1.now) }
    ensures parts { Finds (λ p. (p.0.now, p.1.now)) result (cut_at 10 bytes.now) }
    ensures shorter { IfSome result (λ p. length p.1.now < length bytes.now) }
{
    let place = first_feed(bytes)?;
    let (front, _) = bytes.split_at(place);
    let (_, rest) = bytes.split_at(place + 1);
    Some((front, rest))
}

/// A line of a text, whether a line feed ends it, and the text behind it.
#[derive(Clone, Copy)]
pub struct FirstLine<'a> {
    /// The bytes of the line, without its line feed.
    pub bytes: &'a [u8],
    /// Whether a line feed ends it.
    pub ended: bool,
    /// The bytes behind it.
    pub behind: &'a [u8],
}

/// The first line of a text that isn't empty.
#[tactic(auto, using(scenario_text::proofs::ForCallers::ended_line, scenario_text::proofs::ForCallers::last_line, crate::proofs::Parts::cut_whole))]
pub fn first_line(text: &[u8]) -> FirstLine<'_>
    requires { 0 < length text.now }
    ensures lines { lines text.now ≡ record { bytes = result.bytes.now; ended = result.ended } ∷ lines result.behind.now }
    ensures whole { result.ended ≡ true → text.now ≡ result.bytes.now ++ 10 ∷ result.behind.now }
    ensures last { result.ended ≡ false → result.behind.now ≡ [] }
    ensures shorter { length result.behind.now < length text.now }
{
    match cut_line(text) {
        Some((bytes, behind)) => FirstLine {
            bytes,
            ended: true,
            behind,
        },
        None => FirstLine {
            bytes: text,
            ended: false,
            behind: &[],
        },
    }
}
