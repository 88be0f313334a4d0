// Runs of simple three-byte characters, told by looks at several bytes. Simple: the first byte is E1..EF but not ED, so any two bytes of 80..BF may follow.
ghost use Rattle.std.specs.Prelude.{◌≡◌, [], ◌∷◌};
ghost use Rattle.text.specs.Octets.{octet_of};
ghost use Rattle.text_check.specs.FastCheck.{is_e0_to_ef, not_e0_or_ed, is_tail, simple_first, run_of_one, run_of_two, simple_character, run_none_due, run_one_due, run_two_due, run_of_four, run_of_twelve};

// The octets of a word, the highest first, as numbers of its width.
#[tactic(auto, unfolding(text::specs::Octets::octet_of))]
pub(crate) fn octets(w: u32) -> [u32; 4]
    ensures { result ≡ octet_of w 0 ∷ octet_of w 1 ∷ octet_of w 2 ∷ octet_of w 3 ∷ [] }
{
    let [a, b, c, d] = w.to_be_bytes();
    [a.into(), b.into(), c.into(), d.into()]
}

// Whether b is one of E0..EF.
fn is_e0_to_ef(b: u32) -> bool
    ensures { result ≡ is_e0_to_ef b }
{
    b / 16 == 14
}

// Whether a byte of E0..EF is neither E0 nor ED, whose second byte is restricted.
fn not_e0_or_ed(b: u32) -> bool
    ensures { result ≡ not_e0_or_ed b }
{
    b % 16 != 0 && b % 16 != 13
}

// Whether b is one of 80..BF, a tail byte.
fn is_tail(b: u32) -> bool
    ensures { result ≡ is_tail b }
{
    b / 64 == 2
}

// Whether b is the first byte of a simple three-byte character.
fn simple_first(b: u32) -> bool
    ensures { result ≡ simple_first b }
{
    is_e0_to_ef(b) && not_e0_or_ed(b)
}

// Whether byte b continues a run of simple characters that has `due` tails due.
#[tactic(auto, unfolding(crate::specs::FastCheck::run_of_one))]
pub(crate) fn run_of_one(due: u64, b: u32) -> bool
    ensures { result ≡ run_of_one due b }
{
    match due {
        0 => simple_first(b),
        1 => is_tail(b),
        2 => is_tail(b),
        _ => false,
    }
}

// Whether two bytes continue such a run.
#[tactic(auto, unfolding(crate::specs::FastCheck::run_of_two))]
pub(crate) fn run_of_two(due: u64, a: u32, b: u32) -> bool
    ensures { result ≡ run_of_two due a b }
{
    match due {
        0 => simple_first(a) && is_tail(b),
        1 => is_tail(a) && simple_first(b),
        2 => is_tail(a) && is_tail(b),
        _ => false,
    }
}

// Whether three bytes are a simple character. Here and below the high bits are tested first, so that LLVM joins these tests into one.
pub(crate) fn simple_character(a: u32, b: u32, c: u32) -> bool
    ensures { result ≡ simple_character a b c }
{
    is_e0_to_ef(a) && is_tail(b) && is_tail(c) && not_e0_or_ed(a)
}

// Whether the four octets of w continue a run that has no tail due. This and the next two stay apart: LLVM makes one test of each, under a mask of its own.
#[tactic(auto, unfolding(crate::specs::FastCheck::run_none_due))]
pub(crate) fn run_none_due(w: u32) -> bool
    ensures { result ≡ run_none_due w }
{
    let [a, b, c, d] = octets(w);
    is_e0_to_ef(a)
        && is_tail(b)
        && is_tail(c)
        && is_e0_to_ef(d)
        && not_e0_or_ed(a)
        && not_e0_or_ed(d)
}

// Whether the four octets of w continue a run that has one tail due.
#[tactic(auto, unfolding(crate::specs::FastCheck::run_one_due))]
pub(crate) fn run_one_due(w: u32) -> bool
    ensures { result ≡ run_one_due w }
{
    let [a, b, c, d] = octets(w);
    is_tail(a) && is_e0_to_ef(b) && is_tail(c) && is_tail(d) && not_e0_or_ed(b)
}

// Whether the four octets of w continue a run that has two tails due.
#[tactic(auto, unfolding(crate::specs::FastCheck::run_two_due))]
pub(crate) fn run_two_due(w: u32) -> bool
    ensures { result ≡ run_two_due w }
{
    let [a, b, c, d] = octets(w);
    is_tail(a) && is_tail(b) && is_e0_to_ef(c) && is_tail(d) && not_e0_or_ed(c)
}

// Whether the four octets of w continue a run that has `due` tails due.
#[tactic(auto, unfolding(crate::specs::FastCheck::run_of_four))]
pub(crate) fn run_of_four(due: u64, w: u32) -> bool
    ensures { result ≡ run_of_four due w }
{
    match due {
        0 => run_none_due(w),
        1 => run_one_due(w),
        2 => run_two_due(w),
        _ => false,
    }
}

// Whether the twelve octets of three words continue a run that has `due` tails due. As many are due after them.
#[tactic(auto, unfolding(crate::specs::FastCheck::run_of_twelve))]
pub(crate) fn run_of_twelve(due: u64, a: u32, b: u32, c: u32) -> bool
    ensures { result ≡ run_of_twelve due a b c }
{
    match due {
        0 => run_none_due(a) && run_two_due(b) && run_one_due(c),
        1 => run_one_due(a) && run_none_due(b) && run_two_due(c),
        2 => run_two_due(a) && run_one_due(b) && run_none_due(c),
        _ => false,
    }
}
