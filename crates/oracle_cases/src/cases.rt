// The cases as they are stored. Each program of stored cases has its own form of them, so their iterators stay apart.
ghost use Rattle.std.specs.Prelude.{length};
ghost use Rattle.std.specs.Iterator.{at_most};

// What a setting sets.
#[derive(Clone, Copy)]
pub(crate) enum Field {
    EndpointName,
    ProductInstanceId,
    FunctionBlockName,
    BlockNumber,
}

#[derive(Clone, Copy)]
pub(crate) enum Asked {
    Read,
    Set(Field),
}

// What a code asks; any other asks for nothing that there is, and is refused.
fn asked_of(code: u8) -> Option<Asked> {
    match code {
        0x00 => Some(Asked::Read),
        0x03 => Some(Asked::Set(Field::EndpointName)),
        0x04 => Some(Asked::Set(Field::ProductInstanceId)),
        0x12 => Some(Asked::Set(Field::FunctionBlockName)),
        0x13 => Some(Asked::Set(Field::BlockNumber)),
        _ => None,
    }
}

#[derive(Clone, Copy)]
pub(crate) struct Case<'a> {
    pub asked: Option<Asked>,
    pub words: &'a [u8],
    pub data: &'a [u8],
}

// The cases that are left. One that is cut short is the end.
#[derive(Drop)]
pub(crate) struct Cases<'a>(pub &'a [u8]);

impl<'a> Iterator for Cases<'a> {
    type Item = Case<'a>;

    ghost remaining = { λ s. at_most (length s.0.now) };

    fn next(&mut self) -> Option<Case<'a>> {
        let (head, rest) = self.0.split_first_chunk::<5>()?;
        let [code, words_high, words_low, bytes_high, bytes_low] = *head;
        let count = u16::from_be_bytes([words_high, words_low]);
        let bytes = u16::from_be_bytes([bytes_high, bytes_low]);
        let (words, rest) = rest.split_at_checked(usize::from(count) * 4)?;
        let (data, rest) = rest.split_at_checked(usize::from(bytes))?;
        self.0 = rest;
        Some(Case {
            asked: asked_of(code),
            words,
            data,
        })
    }
}
