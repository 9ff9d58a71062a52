//! Bytes cut at a mark, such as words at spaces.
ghost use Rattle.std.specs.Prelude.{◌≡◌, ◌<◌, ◌==◌, [], ◌∷◌, length, position, MatchOption, IfSome};
ghost use Rattle.scenario_text.specs.Pieces.{Finds, cut_at, pieces, only_one, only_two, only_three, only_four, only_five, first_and_more, first_word, words_of};

/// The place of the first mark, counted from 0.
fn first_mark(bytes: &[u8], mark: u8) -> Option<usize>
    ensures { result ≡ position (λ b. b == mark) bytes.now }
{
    bytes.iter().position(|byte| *byte == mark)
}

/// The bytes before the first mark and the bytes behind it, where there is a mark.
#[tactic(auto, using(crate::proofs::PieceLemmas::cuts))]
pub fn cut(bytes: &[u8], mark: u8) -> Option<(&[u8], &[u8])>
    ensures more { Finds (λ p. (p.0.now, pieces mark p.1.now)) result (first_and_more (pieces mark bytes.now)) }
    ensures parts { Finds (λ p. (p.0.now, p.1.now)) result (cut_at mark bytes.now) }
    ensures pieces { MatchOption result (pieces mark bytes.now ≡ bytes.now ∷ []) (λ p. pieces mark bytes.now ≡ p.0.now ∷ pieces mark p.1.now) }
    ensures shorter { IfSome result (λ p. length p.1.now < length bytes.now) }
{
    let place = first_mark(bytes, mark)?;
    let (front, _) = bytes.split_at(place);
    let (_, rest) = bytes.split_at(place + 1);
    Some((front, rest))
}

/// The only piece, where there is no mark.
#[tactic(auto, using(crate::proofs::PieceLemmas::only_one_of_two), unfolding(crate::specs::Pieces::only_one))]
pub fn one_piece(bytes: &[u8], mark: u8) -> Option<&[u8]>
    ensures { Finds (λ p. p.now) result (only_one (pieces mark bytes.now)) }
{
    match cut(bytes, mark) {
        None => Some(bytes),
        Some(_) => None,
    }
}

/// The pieces, where there are just two.
#[tactic(auto, unfolding(crate::specs::Pieces::only_two, crate::specs::Pieces::only_one))]
pub fn two_pieces(bytes: &[u8], mark: u8) -> Option<(&[u8], &[u8])>
    ensures { Finds (λ p. (p.0.now, p.1.now)) result (only_two (pieces mark bytes.now)) }
{
    let (first, rest) = cut(bytes, mark)?;
    let second = one_piece(rest, mark)?;
    Some((first, second))
}

/// The pieces, where there are just three.
#[tactic(auto, unfolding(crate::specs::Pieces::only_three, crate::specs::Pieces::only_two, crate::specs::Pieces::only_one))]
pub fn three_pieces(bytes: &[u8], mark: u8) -> Option<(&[u8], &[u8], &[u8])>
    ensures { Finds (λ p. (p.0.now, p.1.now, p.2.now)) result (only_three (pieces mark bytes.now)) }
{
    let (first, rest) = cut(bytes, mark)?;
    let (second, third) = two_pieces(rest, mark)?;
    Some((first, second, third))
}

/// The pieces, where there are just four.
#[tactic(auto, unfolding(crate::specs::Pieces::only_four, crate::specs::Pieces::only_three, crate::specs::Pieces::only_two, crate::specs::Pieces::only_one))]
pub fn four_pieces(bytes: &[u8], mark: u8) -> Option<(&[u8], &[u8], &[u8], &[u8])>
    ensures { Finds (λ p. (p.0.now, p.1.now, p.2.now, p.3.now)) result (only_four (pieces mark bytes.now)) }
{
    let (first, rest) = cut(bytes, mark)?;
    let (second, third, fourth) = three_pieces(rest, mark)?;
    Some((first, second, third, fourth))
}

/// The pieces, where there are just five.
#[tactic(auto, unfolding(crate::specs::Pieces::only_five, crate::specs::Pieces::only_four, crate::specs::Pieces::only_three, crate::specs::Pieces::only_two, crate::specs::Pieces::only_one))]
pub fn five_pieces(bytes: &[u8], mark: u8) -> Option<(&[u8], &[u8], &[u8], &[u8], &[u8])>
    ensures { Finds (λ p. (p.0.now, p.1.now, p.2.now, p.3.now, p.4.now)) result (only_five (pieces mark bytes.now)) }
{
    let (first, rest) = cut(bytes, mark)?;
    let (second, third, fourth, fifth) = four_pieces(rest, mark)?;
    Some((first, second, third, fourth, fifth))
}

/// The first word of a line.
pub fn first_word(line: &[u8]) -> &[u8]
    ensures { result.now ≡ first_word (words_of line.now) }
{
    match cut(line, b' ') {
        Some((word, _)) => word,
        None => line,
    }
}
