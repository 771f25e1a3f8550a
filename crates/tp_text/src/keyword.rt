//! The keywords with which the lines of steps begin.
ghost use Rattle.std.specs.Prelude.{◌≡◌, ◌≢◌, MatchOption};
ghost use Rattle.tp_text.specs.{Keywords.keyword_text, declared.keyword.Keyword.Keyword};

/// The first word of a step's line.
#[derive(Clone, Copy)]
pub(crate) enum Keyword {
    Insert,
    Supply,
    Begin,
    Done,
    Open,
    Close,
    Ready,
    Send,
    Recv,
    End,
    Start,
    Down,
    Give,
    Up,
    Judge,
    Reopen,
}

/// Returns the keyword that a word spells, if it spells one.
pub(crate) fn keyword_of(word: &[u8]) -> Option<Keyword>
    ensures { MatchOption result
        ((k : Keyword) → word.now ≢ keyword_text k)
        (λ k. word.now ≡ keyword_text k) }
{
    match word {
        b"insert" => Some(Keyword::Insert),
        b"supply" => Some(Keyword::Supply),
        b"begin" => Some(Keyword::Begin),
        b"done" => Some(Keyword::Done),
        b"open" => Some(Keyword::Open),
        b"close" => Some(Keyword::Close),
        b"ready" => Some(Keyword::Ready),
        b"send" => Some(Keyword::Send),
        b"recv" => Some(Keyword::Recv),
        b"end" => Some(Keyword::End),
        b"start" => Some(Keyword::Start),
        b"down" => Some(Keyword::Down),
        b"give" => Some(Keyword::Give),
        b"up" => Some(Keyword::Up),
        b"judge" => Some(Keyword::Judge),
        b"reopen" => Some(Keyword::Reopen),
        _ => None,
    }
}
