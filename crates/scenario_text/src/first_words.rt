//! The usual commands, told by the bytes of their first word and of the space behind it.
ghost use Rattle.std.specs.Prelude.{◌≡◌, ◌++◌, codes, IfSome};

/// What stands behind `take` and its space, where the line begins so.
pub fn behind_take(line: &[u8]) -> Option<&[u8]>
    ensures { IfSome result (λ rest. line.now ≡ codes "take " ++ rest.now) }
{
    match line {
        [b't', b'a', b'k', b'e', b' ', rest @ ..] => Some(rest),
        _ => None,
    }
}

/// What stands behind `give` and its space, where the line begins so.
pub fn behind_give(line: &[u8]) -> Option<&[u8]>
    ensures { IfSome result (λ rest. line.now ≡ codes "give " ++ rest.now) }
{
    match line {
        [b'g', b'i', b'v', b'e', b' ', rest @ ..] => Some(rest),
        _ => None,
    }
}

/// What stands behind `step` and its space, where the line begins so.
pub fn behind_step(line: &[u8]) -> Option<&[u8]>
    ensures { IfSome result (λ rest. line.now ≡ codes "step " ++ rest.now) }
{
    match line {
        [b's', b't', b'e', b'p', b' ', rest @ ..] => Some(rest),
        _ => None,
    }
}

/// What stands behind `fate` and its space, where the line begins so.
pub fn behind_fate(line: &[u8]) -> Option<&[u8]>
    ensures { IfSome result (λ rest. line.now ≡ codes "fate " ++ rest.now) }
{
    match line {
        [b'f', b'a', b't', b'e', b' ', rest @ ..] => Some(rest),
        _ => None,
    }
}

/// What stands behind `begin` and its space, where the line begins so.
pub fn behind_begin(line: &[u8]) -> Option<&[u8]>
    ensures { IfSome result (λ rest. line.now ≡ codes "begin " ++ rest.now) }
{
    match line {
        [b'b', b'e', b'g', b'i', b'n', b' ', rest @ ..] => Some(rest),
        _ => None,
    }
}

/// What stands behind `commit` and its space, where the line begins so.
pub fn behind_commit(line: &[u8]) -> Option<&[u8]>
    ensures { IfSome result (λ rest. line.now ≡ codes "commit " ++ rest.now) }
{
    match line {
        [b'c', b'o', b'm', b'm', b'i', b't', b' ', rest @ ..] => Some(rest),
        _ => None,
    }
}

/// What stands behind `go` and its space, where the line begins so.
pub fn behind_go(line: &[u8]) -> Option<&[u8]>
    ensures { IfSome result (λ rest. line.now ≡ codes "go " ++ rest.now) }
{
    match line {
        [b'g', b'o', b' ', rest @ ..] => Some(rest),
        _ => None,
    }
}
