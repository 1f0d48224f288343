//! Whether the rounds and the messages of three views are those of a run.

ghost use Rattle.std.specs.Prelude.{◌≡◌, ◌≢◌, ◌<◌, ◌≤◌, ◌^◌, ◌⊎◌, [], ℕ, IfErr, length, slice_index, unwrap_or};
ghost use Rattle.beet_field.specs.Trio.{member};
ghost use Rattle.beet_field.specs.declared.TheConstants.{MOST_NUMBERS};
ghost use Rattle.beet_plan.specs.Auction.{auction_batch};
ghost use Rattle.beet_round.specs.Sides.{peer};
ghost use Rattle.beet_round.specs.declared.sides.Side.TheVariants.{Low, High};
ghost use Rattle.beet_server.specs.Steps.{received_from};
ghost use Rattle.beet_sharing.specs.Runs.{Setup, message};
ghost use Rattle.beet_server.specs.Lockstep.{IsAtRound};
ghost use Rattle.beet_audit.specs.Audits.{HoldsTooMany, Message, MessageFrom, RoundMessages, Rounds, held_from};
ghost use Rattle.beet_audit.specs.Verdicts.{EachBelow, EachServer, InTurn, Judges, Wants};
ghost use Rattle.beet_audit.specs.declared.fault.AuditFault.TheVariants.{MessageDiffers as NumberDiffers};
ghost use Rattle.beet_audit.specs.declared.fault.AuditFault.TheVariants.{OutOfMemory as Memory};
ghost use Rattle.beet_audit.specs.declared.fault.AuditFault.TheVariants.{RoundsDiffer as OtherRounds};

use crate::fault::AuditFault;
use beet_field::{Fe, Point, Trio};
use beet_round::Side;
use beet_search::AuctionScript;
use beet_server::ServerCore;
use beet_view::View;

/// Refuses a server whose view has not the rounds of its core.
fn check_count(s: Point, view: &View, core: &ServerCore<AuctionScript>) -> Result<(), AuditFault>
    ensures count { Judges (Wants (length view.now.rounds ≡ core.now.round)
        (OtherRounds s (length view.now.rounds) core.now.round)) result }
    ensures memory { IfErr result (λ fault. fault ≢ Memory) }
{
    let held = view.rounds();
    let expected = core.round();
    if held == expected {
        Ok(())
    } else {
        Err(AuditFault::RoundsDiffer(s, held, expected))
    }
}

/// Refuses the first server whose view has not the rounds of the run.
pub(crate) fn check_rounds(
    views: &Trio<View>,
    cores: &Trio<ServerCore<AuctionScript>>,
) -> Result<(), AuditFault>
    ensures rounds { (rounds : ℕ) → ((s : Point) → (member cores.now s).round ≡ rounds)
        → Judges (EachServer (Rounds views.now rounds)) result }
    ensures memory { IfErr result (λ fault. fault ≢ Memory) }
{
    check_count(Point::One, &views.one, &cores.one)?;
    check_count(Point::Two, &views.two, &cores.two)?;
    check_count(Point::Three, &views.three, &cores.three)?;
    Ok(())
}

/// Refuses the first number that is not as it was sent.
fn check_numbers(
    sender: Point,
    receiver: Point,
    round: u32,
    held: &[Fe],
    sent: &[Fe],
) -> Result<(), AuditFault>
    requires { length held.now ≡ length sent.now }
    ensures numbers { Judges (EachBelow (length sent.now) (λ k. Wants (slice_index held.now k ≡ slice_index sent.now k)
        (NumberDiffers sender receiver round k (slice_index held.now k) (slice_index sent.now k)))) result }
    ensures memory { IfErr result (λ fault. fault ≡ Memory → 2 ^ 32 ≤ length sent.now) }
{
    let Ok(count) = u32::try_from(sent.len()) else {
        return Err(AuditFault::OutOfMemory);
    };
    for place in 0..count {
        let (number, expected) = (held[place as usize], sent[place as usize]);
        if number != expected {
            return Err(AuditFault::MessageDiffers(
                sender, receiver, round, place, number, expected,
            ));
        }
    }
    Ok(())
}

/// Refuses a message that is not as it was sent. Every message has few numbers: one with 2^32 or more, which no memory
/// holds, is not told from want of memory.
fn check_message(
    sender: Point,
    receiver: Point,
    round: u32,
    held: &[Fe],
    sent: &[Fe],
) -> Result<(), AuditFault>
    ensures message { Judges (Message sender receiver round held.now sent.now) result }
    ensures memory { IfErr result (λ fault. fault ≡ Memory
        → (2 ^ 32 ≤ length held.now) ⊎ (2 ^ 32 ≤ length sent.now)) }
{
    let (Ok(count), Ok(expected)) = (u32::try_from(held.len()), u32::try_from(sent.len())) else {
        return Err(AuditFault::OutOfMemory);
    };
    if count != expected {
        return Err(AuditFault::LengthDiffers(sender, receiver, round, count, expected));
    }
    check_numbers(sender, receiver, round, held, sent)
}

/// The numbers of a sender that a view holds for a round.
fn numbers_held(view: &View, round: u32, sender: Point) -> &[Fe]
    ensures { result.now ≡ held_from view.now round sender }
{
    match view.numbers(round, sender) {
        Some(numbers) => numbers,
        None => &[],
    }
}

/// The numbers of a sender that a core received in a round.
fn numbers_sent(core: &ServerCore<AuctionScript>, round: u32, sender: Point) -> &[Fe]
    ensures numbers { result.now ≡ unwrap_or (received_from core.now round sender) [] }
    ensures few { length result.now ≤ MOST_NUMBERS }
{
    match core.received(round, sender) {
        Some(numbers) => numbers,
        None => &[],
    }
}

/// Refuses the message of a sender to a server in a round, if it is not as the server's core received it.
fn check_sender(
    receiver: Point,
    sender: Point,
    view: &View,
    core: &ServerCore<AuctionScript>,
    round: u32,
) -> Result<(), AuditFault>
    ensures message { Judges (Message sender receiver round (held_from view.now round sender)
        (unwrap_or (received_from core.now round sender) [])) result }
    ensures memory { IfErr result (λ fault. fault ≡ Memory → 2 ^ 32 ≤ length (held_from view.now round sender)) }
{
    let held = numbers_held(view, round, sender);
    let sent = numbers_sent(core, round, sender);
    check_message(sender, receiver, round, held, sent)
}

/// Refuses the first of both messages to a server in a round that is not that of the run.
fn check_receiver(
    receiver: Point,
    view: &View,
    core: &ServerCore<AuctionScript>,
    round: u32,
) -> Result<(), AuditFault>
    ensures messages { (o : Setup) (rounds : ℕ) → IsAtRound auction_batch o rounds receiver core.now → round < rounds
        → Judges (InTurn
        (Message (peer receiver Low) receiver round (held_from view.now round (peer receiver Low))
        (message o (peer receiver Low) receiver round))
        (Message (peer receiver High) receiver round (held_from view.now round (peer receiver High))
        (message o (peer receiver High) receiver round))) result }
    ensures memory { IfErr result (λ fault. fault ≡ Memory
        → (sender : Point) × (2 ^ 32 ≤ length (held_from view.now round sender))) }
{
    check_sender(receiver, Side::Low.peer(receiver), view, core, round)?;
    check_sender(receiver, Side::High.peer(receiver), view, core, round)?;
    Ok(())
}

/// Refuses the first message of a round that is not that of the run.
fn check_round(
    views: &Trio<View>,
    cores: &Trio<ServerCore<AuctionScript>>,
    round: u32,
) -> Result<(), AuditFault>
    ensures messages { (o : Setup) (rounds : ℕ)
        → ((s : Point) → IsAtRound auction_batch o rounds s (member cores.now s))
        → round < rounds → Judges (RoundMessages o views.now round) result }
    ensures memory { IfErr result (λ fault. fault ≡ Memory → HoldsTooMany views.now) }
{
    check_receiver(Point::One, &views.one, &cores.one, round)?;
    check_receiver(Point::Two, &views.two, &cores.two, round)?;
    check_receiver(Point::Three, &views.three, &cores.three, round)?;
    Ok(())
}

/// Refuses the first message that is not that of the run.
pub(crate) fn check_messages(
    views: &Trio<View>,
    cores: &Trio<ServerCore<AuctionScript>>,
) -> Result<(), AuditFault>
    ensures messages { (o : Setup) (rounds : ℕ)
        → ((s : Point) → IsAtRound auction_batch o rounds s (member cores.now s))
        → Judges (EachBelow rounds (RoundMessages o views.now)) result }
    ensures memory { IfErr result (λ fault. fault ≡ Memory → HoldsTooMany views.now) }
{
    for round in 0..cores.one.round() {
        check_round(views, cores, round)?;
    }
    Ok(())
}
