// A command of which some words were read.

ghost use Rattle.std.specs.Prelude.{◌≡◌, ok_or};
ghost use Rattle.line.specs.Claims.{CallFits};
ghost use Rattle.commands.specs.Drafts.{command_word, picture_word, slice_word, put_part, list_part, put_call};
ghost use Rattle.commands.specs.Drafts.{list_call, next, expected, step, finished};
ghost use Rattle.commands.specs.Commands.{CommandFits};

use crate::Expected;
use crate::numbers::{byte_of, number_of, signed_of};
use line::Call;

// The list limit where none is given.
const USUAL_LIMIT: u8 = 21;

// The parts of a put that were given. `none` is a flag and the number no `Option`: the line of a put of no picture shows the number that was
// given.
#[derive(Clone, Copy, Default)]
pub struct PutParts {
    pub poc: u32,
    pub layer: Option<u8>,
    pub gap: Option<u32>,
    pub idr: bool,
    pub out: bool,
    pub reference: bool,
    pub none: bool,
}

// The parts of a list call that were given.
#[derive(Clone, Copy, Default)]
pub struct ListParts {
    pub slice: u8,
    pub poc: u32,
    pub layer: Option<u8>,
    pub intra: Option<u32>,
    pub limit: Option<u8>,
}

// A command as far as it was read, by the word that comes next.
#[derive(Clone, Copy)]
pub enum Draft {
    Command,
    Get,
    Out,
    Init,
    InitRefs(u8),
    InitEnd(u8, u8),
    Put,
    PutPart(PutParts),
    PutLayer(PutParts),
    PutGap(PutParts),
    Lists,
    ListsNumber(u8),
    ListPart(ListParts),
    ListLayer(ListParts),
    ListIntra(ListParts),
    ListLimit(ListParts),
    Derive,
    DeriveLayer(u8),
    DeriveEnd(u8, u8),
}

fn command_word(word: &[u8]) -> Option<Draft>
    ensures { result ≡ command_word word.now }
{
    match word {
        b"init" => Some(Draft::Init),
        b"get" => Some(Draft::Get),
        b"put" => Some(Draft::Put),
        b"out" => Some(Draft::Out),
        b"lists" => Some(Draft::Lists),
        b"derive" => Some(Draft::Derive),
        _ => None,
    }
}

// A number, or `none` for a put of no picture.
fn picture_word(word: &[u8]) -> Option<PutParts>
    ensures { result ≡ picture_word word.now }
{
    match word {
        b"none" => Some(PutParts {
            none: true,
            ..PutParts::default()
        }),
        _ => Some(PutParts {
            poc: number_of(word)?,
            ..PutParts::default()
        }),
    }
}

// A slice is its byte, I, P or B.
fn slice_word(word: &[u8]) -> Option<u8>
    ensures { result ≡ slice_word word.now }
{
    match word {
        b"I" => Some(1),
        b"P" => Some(2),
        b"B" => Some(3),
        _ => byte_of(word),
    }
}

impl PutParts {
    // With one more part, which was not given before.
    fn next(self, word: &[u8]) -> Option<Draft>
        ensures { result ≡ put_part self word.now }
    {
        match word {
            b"layer" if self.layer.is_none() => Some(Draft::PutLayer(self)),
            b"gap" if self.gap.is_none() => Some(Draft::PutGap(self)),
            b"idr" if !self.idr => Some(Draft::PutPart(PutParts { idr: true, ..self })),
            b"out" if !self.out => Some(Draft::PutPart(PutParts { out: true, ..self })),
            b"ref" if !self.reference => Some(Draft::PutPart(PutParts {
                reference: true,
                ..self
            })),
            b"none" if !self.none => Some(Draft::PutPart(PutParts { none: true, ..self })),
            _ => None,
        }
    }

    // The call, its flags in one byte.
    #[tactic(auto, unfolding(line::specs::Claims::CallFits))]
    fn call(self) -> Call
        ensures is { result ≡ put_call self }
        ensures fits { CallFits result }
    {
        Call::PutPic {
            flags: u8::from(self.idr)
                + 2 * u8::from(self.out)
                + 4 * u8::from(self.reference)
                + 8 * u8::from(self.none),
            poc: self.poc,
            temporal_id: self.layer.unwrap_or(0),
            ref_pic_gap_length: self.gap.unwrap_or(0),
        }
    }
}

impl ListParts {
    // With one more part, which was not given before.
    fn next(self, word: &[u8]) -> Option<Draft>
        ensures { result ≡ list_part self word.now }
    {
        match word {
            b"layer" if self.layer.is_none() => Some(Draft::ListLayer(self)),
            b"intra" if self.intra.is_none() => Some(Draft::ListIntra(self)),
            b"limit" if self.limit.is_none() => Some(Draft::ListLimit(self)),
            _ => None,
        }
    }

    // The call.
    #[tactic(auto, unfolding(line::specs::Claims::CallFits))]
    fn call(self) -> Call
        ensures is { result ≡ list_call self }
        ensures fits { CallFits result }
    {
        Call::RefpInit {
            slice_type: self.slice,
            poc: self.poc,
            layer_id: self.layer.unwrap_or(0),
            last_intra: self.intra.unwrap_or(0),
            max_num_ref_pics: self.limit.unwrap_or(USUAL_LIMIT),
        }
    }
}

impl Draft {
    // The draft with one more word, where it fits.
    #[tactic(auto, unfolding(crate::specs::Drafts::next))]
    pub fn next(self, word: &[u8]) -> Option<Draft>
        ensures { result ≡ next self word.now }
    {
        match self {
            Draft::Command => command_word(word),
            Draft::Init => Some(Draft::InitRefs(byte_of(word)?)),
            Draft::InitRefs(size) => Some(Draft::InitEnd(size, byte_of(word)?)),
            Draft::Put => Some(Draft::PutPart(picture_word(word)?)),
            Draft::PutPart(parts) => parts.next(word),
            Draft::PutLayer(parts) => Some(Draft::PutPart(PutParts {
                layer: Some(byte_of(word)?),
                ..parts
            })),
            Draft::PutGap(parts) => Some(Draft::PutPart(PutParts {
                gap: Some(number_of(word)?),
                ..parts
            })),
            Draft::Lists => Some(Draft::ListsNumber(slice_word(word)?)),
            Draft::ListsNumber(slice) => Some(Draft::ListPart(ListParts {
                slice,
                poc: number_of(word)?,
                ..ListParts::default()
            })),
            Draft::ListPart(parts) => parts.next(word),
            Draft::ListLayer(parts) => Some(Draft::ListPart(ListParts {
                layer: Some(byte_of(word)?),
                ..parts
            })),
            Draft::ListIntra(parts) => Some(Draft::ListPart(ListParts {
                intra: Some(signed_of(word)?),
                ..parts
            })),
            Draft::ListLimit(parts) => Some(Draft::ListPart(ListParts {
                limit: Some(byte_of(word)?),
                ..parts
            })),
            Draft::Derive => Some(Draft::DeriveLayer(byte_of(word)?)),
            Draft::DeriveLayer(length) => Some(Draft::DeriveEnd(length, byte_of(word)?)),
            Draft::Get | Draft::Out | Draft::InitEnd(_, _) | Draft::DeriveEnd(_, _) => None,
        }
    }

    // What has to come next.
    pub fn expected(self) -> Expected
        ensures { result ≡ expected self }
    {
        match self {
            Draft::Command => Expected::Command,
            Draft::Init | Draft::Derive => Expected::First,
            Draft::InitRefs(_) | Draft::DeriveLayer(_) => Expected::Second,
            Draft::Put => Expected::Picture,
            Draft::PutPart(_) => Expected::PutPart,
            Draft::PutLayer(_) | Draft::ListLayer(_) => Expected::Layer,
            Draft::PutGap(_) => Expected::Gap,
            Draft::Lists => Expected::Slice,
            Draft::ListsNumber(_) => Expected::Number,
            Draft::ListPart(_) => Expected::ListPart,
            Draft::ListIntra(_) => Expected::Intra,
            Draft::ListLimit(_) => Expected::Limit,
            Draft::Get | Draft::Out | Draft::InitEnd(_, _) | Draft::DeriveEnd(_, _) =>
                Expected::End,
        }
    }

    // The draft with one more word, or what was expected in its place.
    pub fn step(self, word: &[u8]) -> Result<Draft, Expected>
        ensures { result ≡ step self word.now }
    {
        self.next(word).ok_or(self.expected())
    }

    // What a line says that ends here: nothing, a call, or what was expected.
    #[tactic(auto, unfolding(line::specs::Claims::CallFits))]
    pub fn finish(self) -> Result<Option<Call>, Expected>
        ensures is { result ≡ finished self }
        ensures fits { CommandFits result }
    {
        match self {
            Draft::Command => Ok(None),
            Draft::Get => Ok(Some(Call::GetEmptyPic)),
            Draft::Out => Ok(Some(Call::OutPic)),
            Draft::InitEnd(max_pb_size, max_num_ref_pics) => Ok(Some(Call::Init {
                max_pb_size,
                max_num_ref_pics,
            })),
            Draft::PutPart(parts) => Ok(Some(parts.call())),
            Draft::ListPart(parts) => Ok(Some(parts.call())),
            Draft::DeriveEnd(log2_sub_gop_length, tid) => Ok(Some(Call::PocDerivation {
                log2_sub_gop_length,
                tid,
            })),
            _ => Err(self.expected()),
        }
    }
}
