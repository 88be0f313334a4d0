// What the library says of itself: its version, the sentence of a refusal, the name of a kind.
ghost use Rattle.std.specs.Prelude.{◌≡◌, length};
ghost use Rattle.sentences.specs.Strings.{as_string};
ghost use Rattle.sentences.specs.Sentences.{refusal_sentence, status_name};

// Major, minor and patch, one byte each; it must be the header's FRAYEDBIN_VERSION.
#[unsafe(no_mangle)]
pub extern "C" fn frayedbin_version() -> u32
    ensures { result ≡ 0x000300 }
{
    0x000300
}

#[unsafe(no_mangle)]
pub extern "C" fn frayedbin_refusal_text(refusal: u32, out: &mut [u8]) -> usize
    ensures answer { result ≡ length (refusal_sentence refusal) }
    ensures bytes { out.new ≡ as_string (refusal_sentence refusal) out.old }
{
    sentences::refusal_text(refusal, out)
}

#[unsafe(no_mangle)]
pub extern "C" fn frayedbin_kind_name(status: u32, out: &mut [u8]) -> usize
    ensures answer { result ≡ length (status_name status) }
    ensures bytes { out.new ≡ as_string (status_name status) out.old }
{
    sentences::kind_name(status, out)
}
