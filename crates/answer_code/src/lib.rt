// Every answer of document 01, "Answer numbers": its number, its sense bytes, what a refusal changes in the record and the faulty byte.
#![tactic(auto)]

ghost use Rattle.std.specs.Prelude.{◌≡◌};
ghost use Rattle.answer.specs.Answers.{row_of, sense_of, is_done, refusal_of};

use answer::{Answer, Refusal, Row, Sense};

// The answer's row in document 01's table; that of 8 takes the byte from the answer.
pub fn row_of(answer: Answer) -> Row
    ensures { result ≡ row_of answer }
{
    match answer {
        Answer::Done => Row::DONE,
        Answer::NotWellFormed => Row::NOT_WELL_FORMED,
        Answer::NexusAbove => Row::NEXUS_ABOVE,
        Answer::ChangedByAnotherNexus => Row::CHANGED_BY_ANOTHER_NEXUS,
        Answer::ChangedByVendorEvent => Row::CHANGED_BY_VENDOR_EVENT,
        Answer::ProtocolNotSupported => Row::PROTOCOL_NOT_SUPPORTED,
        Answer::PageNotSupported => Row::PAGE_NOT_SUPPORTED,
        Answer::PageLengthWrong => Row::PAGE_LENGTH_WRONG,
        Answer::FieldWrong(byte) => Row {
            faulty_byte: byte,
            ..Row::FIELD_WRONG
        },
        Answer::FifthSupplementalKey => Row::FIFTH_SUPPLEMENTAL_KEY,
        Answer::NoPlaceForLocal => Row::NO_PLACE_FOR_LOCAL,
        Answer::KeyInstanceChanged => Row::KEY_INSTANCE_CHANGED,
        Answer::ParametersNotUsable => Row::PARAMETERS_NOT_USABLE,
        Answer::PlaceAbove => Row::PLACE_ABOVE,
        Answer::BlockNotKnown => Row::BLOCK_NOT_KNOWN,
        Answer::UnableToDecrypt => Row::UNABLE_TO_DECRYPT,
        Answer::NotEncrypted => Row::NOT_ENCRYPTED,
        Answer::KeyIncorrect => Row::KEY_INCORRECT,
    }
}

// The answer's sense bytes.
pub fn sense_of(answer: Answer) -> Sense
    ensures { result ≡ sense_of answer }
{
    row_of(answer).sense
}

// What a call that is refused with this answer carries.
pub fn refusal_of(answer: Answer) -> Refusal
    ensures { result ≡ refusal_of answer }
{
    Refusal {
        answer,
        sense: sense_of(answer),
    }
}

// Answer 0: the call was carried out.
pub fn is_done(answer: Answer) -> bool
    ensures { result ≡ is_done answer }
{
    matches!(answer, Answer::Done)
}
