ghost use Rattle.std.specs.Prelude.{MatchBool};
ghost use Rattle.std.specs.List.Sorted.{IsNonDecreasingBy};
ghost use Rattle.elf_read.specs.Index.{LieApart, ShareByte};

/// So many bytes of a file from a place on.
#[derive(Clone, Copy)]
pub(crate) struct Span {
    pub start: u64,
    pub size: u64,
}

/// Whether none of these spans that has bytes starts before the end of one before it.
fn follow_one_another(spans: &[Span]) -> bool
    requires { IsNonDecreasingBy (λ s. s.start) spans.now }
    ensures { MatchBool result (LieApart spans.now) (ShareByte spans.now) }
{
    let mut end: u128 = 0;
    for span in spans {
        if span.size == 0 {
            continue;
        }
        let start = span.start as u128;
        if start < end {
            return false;
        }
        end = start + span.size as u128;
    }
    true
}

/// Whether spans lie apart: no byte is in two of them.
pub(crate) fn lie_apart(mut spans: Vec<Span>) -> bool
    ensures { MatchBool result (LieApart spans.items) (ShareByte spans.items) }
{
    spans.sort_unstable_by_key(|span| span.start);
    follow_one_another(spans.as_slice())
}
