//! The lines that refuse three transcripts.

ghost use Rattle.std.specs.Prelude.{◌≡◌, ◌≢◌, ◌++◌, IfOk, codes, string_bytes};
ghost use Rattle.beet_errand.specs.Fetches.{Refuses};
ghost use Rattle.beet_errand.specs.Texts.{line_of};
ghost use Rattle.beet_audit.specs.declared.fault.AuditFault.TheVariants.{OutOfMemory as Memory};
ghost use Rattle.beet_job_audit.specs.Refusals.{at_place, fault_text, held_for, of_bidder, of_message, of_server};
ghost use Rattle.beet_job_audit.specs.Refusals.{on_side, refused_text};

use beet_audit::{AuditFault, Side};
use beet_errand::{OwnRefusal, Refusal, Stop};
use beet_field::{Fe, Point};
use std::alloc::{AllocError, Global};

fn place_text(alloc: Global, place: u32) -> Result<String, AllocError>
    ensures { IfOk result (λ text. string_bytes text ≡ at_place place) }
{
    let text = format!(in alloc; " place {place}")?;
    Ok(text)
}

/// The text of a place on a side.
fn side_text(alloc: Global, place: u32, side: Side) -> Result<String, AllocError>
    ensures { IfOk result (λ text. string_bytes text ≡ at_place place ++ on_side side) }
{
    match side {
        Side::Buy => format!(in alloc; " place {place} side buy"),
        Side::Sell => format!(in alloc; " place {place} side sell"),
    }
}

/// The text of what is held, and what was expected.
fn held_text(alloc: Global, held: u64, expected: u64) -> Result<String, AllocError>
    ensures { IfOk result (λ text. string_bytes text ≡ held_for held expected) }
{
    let text = format!(in alloc; " held {held} expected {expected}")?;
    Ok(text)
}

/// The text of a number that is held at a place, and of the one that was expected.
fn number_text(alloc: Global, place: u32, held: Fe, expected: Fe) -> Result<String, AllocError>
    ensures { IfOk result (λ text. string_bytes text ≡ at_place place ++ held_for held expected) }
{
    let held = held.value();
    let expected = expected.value();
    let text = format!(in alloc; " place {place} held {held} expected {expected}")?;
    Ok(text)
}

/// The line for a server, with this text behind.
fn server_line(alloc: Global, number: u32, at: Point, text: &str) -> Result<Vec<u8>, AllocError>
    ensures { IfOk result (λ line. line.items ≡ line_of (refused_text number ++ of_server at ++ text.now)) }
{
    let at = at.number();
    let line = format!(in alloc; "audit refused {number} server {at}{text}\n")?;
    Ok(line.into_bytes())
}

/// The line for a bidder, with this text behind.
fn bidder_line(alloc: Global, number: u32, bidder: u32, text: &str) -> Result<Vec<u8>, AllocError>
    ensures { IfOk result (λ line. line.items ≡ line_of (refused_text number ++ of_bidder bidder ++ text.now)) }
{
    let line = format!(in alloc; "audit refused {number} bidder {bidder}{text}\n")?;
    Ok(line.into_bytes())
}

/// The text of a message of a round.
fn message_text(
    alloc: Global,
    sender: Point,
    receiver: Point,
    round: u32,
) -> Result<String, AllocError>
    ensures { IfOk result (λ text. string_bytes text ≡ of_message sender receiver round) }
{
    let sender = sender.number();
    let receiver = receiver.number();
    let text = format!(in alloc; " from {sender} to {receiver} round {round}")?;
    Ok(text)
}

/// The line for a message, with this text behind.
fn message_line(
    alloc: Global,
    number: u32,
    message: &str,
    text: &str,
) -> Result<Vec<u8>, AllocError>
    ensures { IfOk result (λ line. line.items ≡ line_of (refused_text number ++ message.now ++ text.now)) }
{
    let line = format!(in alloc; "audit refused {number}{message}{text}\n")?;
    Ok(line.into_bytes())
}

/// The line that tells what is wrong with three transcripts. Want of memory has none.
pub fn refused_line(alloc: Global, fault: AuditFault) -> Result<Vec<u8>, AllocError>
    ensures line { IfOk result (λ line. line.items ≡ fault_text fault) }
    ensures memory { IfOk result (λ line. fault ≢ Memory) }
{
    match fault {
        AuditFault::HeaderDiffers(at) => server_line(alloc, 1, at, ""),
        AuditFault::NotALine(bidder, place, side) => {
            let text = side_text(alloc, place, side)?;
            bidder_line(alloc, 2, bidder, text.as_str())
        }
        AuditFault::NotMonotone(bidder, place) => {
            let text = place_text(alloc, place)?;
            bidder_line(alloc, 3, bidder, text.as_str())
        }
        AuditFault::KnownDiffers(bidder) => bidder_line(alloc, 4, bidder, ""),
        AuditFault::TooFewWords(at) => server_line(alloc, 5, at, ""),
        AuditFault::RoundsDiffer(at, held, expected) => {
            let text = held_text(alloc, held as u64, expected as u64)?;
            server_line(alloc, 6, at, text.as_str())
        }
        AuditFault::MessageDiffers(sender, receiver, round, place, held, expected) => {
            let message = message_text(alloc, sender, receiver, round)?;
            let text = number_text(alloc, place, held, expected)?;
            message_line(alloc, 7, message.as_str(), text.as_str())
        }
        AuditFault::LengthDiffers(sender, receiver, round, held, expected) => {
            let message = message_text(alloc, sender, receiver, round)?;
            let text = held_text(alloc, held as u64, expected as u64)?;
            message_line(alloc, 8, message.as_str(), text.as_str())
        }
        AuditFault::OutOfMemory => Err(AllocError),
    }
}

/// Refuses three transcripts with which this is wrong.
pub(crate) fn refusal(alloc: Global, fault: AuditFault) -> Stop
    ensures refuses { Refuses (Refusal.Own OwnRefusal.OfAudit) (fault_text fault) result }
    ensures memory { result ≢ Stop.OutOfMemory → fault ≢ Memory }
{
    Stop::of_line(
        Refusal::Own(OwnRefusal::OfAudit),
        refused_line(alloc, fault),
    )
}
