// Tests for ASCII text (bytes below 128; zeros count too): a look tells it, and it leaves no character open.
ghost use Rattle.std.specs.Prelude.{◌≡◌};
ghost use Rattle.text_check.specs.FastCheck.{ascii_word, ascii_words};

// Whether all four octets of a word are below 128. LLVM turns the four tests into one.
#[tactic(auto, unfolding(crate::specs::FastCheck::ascii_word, text::specs::Octets::octet_of))]
pub(crate) fn ascii_word(w: u32) -> bool
    ensures { result ≡ ascii_word w }
{
    let [a, b, c, d] = w.to_be_bytes();
    a < 128 && b < 128 && c < 128 && d < 128
}

// The same for four words.
pub(crate) fn ascii_words(a: u32, b: u32, c: u32, d: u32) -> bool
    ensures { result ≡ ascii_words a b c d }
{
    ascii_word(a) && ascii_word(b) && ascii_word(c) && ascii_word(d)
}
