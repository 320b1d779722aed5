// The fields of a message's body, each taken from the front of what is left.
ghost use Rattle.std.specs.Prelude.{ℕ, List};
ghost use Rattle.session_meaning.specs.Messages as meant;
ghost use Rattle.session_meaning.specs.Messages.{Request, Reply};
ghost use Rattle.session_meaning.specs.FetchMessages as asked;
ghost use Rattle.ideal_meaning.specs.Fetched.{Got};
ghost use Rattle.wire_form.specs.TakenFields.{Ends, TakesField, TakesNothing};

use crate::body::BodyFault;
use byteorder::{BigEndian, ByteOrder};
use core_terms::Digest;

/// A number of two bytes, and the bytes behind it; the fault stands at the offset.
pub fn number_of_two(body: &[u8], offset: u32) -> Result<(u16, &[u8]), BodyFault>
    ensures requests { TakesField {A = Request} (λ taken. taken.0) (λ taken. taken.1.now) (meant.field 2 meant.u16_in offset body.now) result }
    ensures replies { TakesField {A = Reply} (λ taken. taken.0) (λ taken. taken.1.now) (meant.field 2 meant.u16_in offset body.now) result }
    ensures fetches { TakesField {A = List ℕ} (λ taken. taken.0) (λ taken. taken.1.now) (meant.field 2 meant.u16_in offset body.now) result }
    ensures answers { TakesField {A = Got} (λ taken. taken.0) (λ taken. taken.1.now) (meant.field 2 meant.u16_in offset body.now) result }
{
    match body.split_at_checked(2) {
        Some((number, behind)) => Ok((BigEndian::read_u16(number), behind)),
        None => Err(BodyFault::At(offset)),
    }
}

/// A number of eight bytes, and the bytes behind it.
pub fn number_of_eight(body: &[u8], offset: u32) -> Result<(u64, &[u8]), BodyFault>
    ensures { TakesField {A = Request} (λ taken. taken.0) (λ taken. taken.1.now) (meant.field 8 meant.u64_in offset body.now) result }
{
    match body.split_at_checked(8) {
        Some((number, behind)) => Ok((BigEndian::read_u64(number), behind)),
        None => Err(BodyFault::At(offset)),
    }
}

/// The number of rounds, and the bytes behind it.
pub fn rounds_field(body: &[u8]) -> Result<(u32, &[u8]), BodyFault>
    ensures { TakesField {A = Request} (λ taken. taken.0) (λ taken. taken.1.now) (meant.field 4 meant.u32_in 3 body.now) result }
{
    match body.split_at_checked(4) {
        Some((number, behind)) => Ok((BigEndian::read_u32(number), behind)),
        None => Err(BodyFault::At(3)),
    }
}

/// The cause of a refusal, and the bytes behind it.
pub fn cause_field(body: &[u8]) -> Result<(u8, &[u8]), BodyFault>
    ensures { TakesField {A = Reply} (λ taken. taken.0) (λ taken. taken.1.now) (meant.field 1 meant.u8_in 3 body.now) result }
{
    match body.split_first() {
        Some((cause, behind)) => Ok((*cause, behind)),
        None => Err(BodyFault::At(3)),
    }
}

/// The number of a session, which isn't 0, and the bytes behind it.
pub fn session_field(body: &[u8]) -> Result<(u16, &[u8]), BodyFault>
    ensures requests { TakesField {A = Request} (λ taken. taken.0) (λ taken. taken.1.now) (meant.session_field body.now) result }
    ensures replies { TakesField {A = Reply} (λ taken. taken.0) (λ taken. taken.1.now) (meant.session_field body.now) result }
{
    let (session, behind) = number_of_two(body, 1)?;
    if session == 0 {
        return Err(BodyFault::At(1));
    }
    Ok((session, behind))
}

/// The session of a message that is for none, and so 0; the bytes behind it.
pub fn zero_field(body: &[u8]) -> Result<&[u8], BodyFault>
    ensures requests { TakesNothing {A = Request} (λ behind. behind.now) (asked.zero_field body.now) result }
    ensures fetches { TakesNothing {A = List ℕ} (λ behind. behind.now) (asked.zero_field body.now) result }
    ensures answers { TakesNothing {A = Got} (λ behind. behind.now) (asked.zero_field body.now) result }
{
    let (session, behind) = number_of_two(body, 1)?;
    if session != 0 {
        return Err(BodyFault::At(1));
    }
    Ok(behind)
}

/// A digest, and the bytes behind it.
pub fn digest_field(body: &[u8]) -> Result<(Digest, &[u8]), BodyFault>
    ensures requests { TakesField {A = Request} (λ taken. taken.0.0) (λ taken. taken.1.now) (meant.program_field body.now) result }
    ensures fetches { TakesField {A = List ℕ} (λ taken. taken.0.0) (λ taken. taken.1.now) (asked.digest_field body.now) result }
{
    match body.split_first_chunk::<32>() {
        Some((digest, behind)) => Ok((Digest(*digest), behind)),
        None => Err(BodyFault::At(3)),
    }
}

/// No byte is left; the fault stands at the offset of the first one that is.
pub fn end(body: &[u8], offset: u32) -> Result<(), BodyFault>
    ensures requests { Ends {A = Request} (meant.ends_at offset body.now) result }
    ensures replies { Ends {A = Reply} (meant.ends_at offset body.now) result }
    ensures fetches { Ends {A = List ℕ} (meant.ends_at offset body.now) result }
    ensures answers { Ends {A = Got} (meant.ends_at offset body.now) result }
{
    if body.is_empty() {
        return Ok(());
    }
    Err(BodyFault::At(offset))
}
