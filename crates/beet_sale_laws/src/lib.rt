//! What the program of sales adds to the laws of a sale, command by command: what is said at status 0 or 6 is how the
//! sale ends by its own bids, and what is put is what a server sees of two sales that it cannot tell apart. And each
//! command ends so if its files are in order, no call of the outside fails and memory suffices.
//!
//! There is no code here, and no memory is taken: the laws are contracts of functions that do nothing.
#![tactic(auto)]

ghost use Rattle.std.specs.Prelude.{◌≡◌, ℕ, List, Some};
ghost use Rattle.beet_field.specs.Point.{server_of};
ghost use Rattle.beet_field.specs.declared.point.Point.{Point};
ghost use Rattle.beet_store.specs.Files.{File};
ghost use Rattle.beet_sale_map.specs.Bids.{Agree};
ghost use Rattle.beet_highbid.specs.SalePairs.{DifferInTheWinningBid};
ghost use Rattle.beet_errand.specs.Overs.{ReadsTo};
ghost use Rattle.beet_sale_load.specs.SaleLoading.{SaleRead, sale_errand};
ghost use Rattle.beet_job_sale_pair.specs.Reading.{Both, both_errand};
ghost use Rattle.beet_app_laws.specs.Calls.{Call};
ghost use Rattle.beet_completeness_laws.specs.WithoutFault.{IsDoneOrShort};
ghost use Rattle.beet_sale_laws.specs.Commands.{IsDoneSale, PutsBothSales, RefusesBothSales, RunsSale, SaysTheSale};
ghost use Rattle.beet_sale_laws.specs.Commands.{pair_words, sale_words};
ghost use Rattle.beet_sale_laws.specs.Complete.{CanPair, CanHoldSale, IsWholeOrShort, MasksSufficeIn};
ghost use Rattle.beet_sale_laws.specs.Complete.{RunsSaleWithoutFault};
ghost use Rattle.beet_sale_laws.specs.Examples.{known_bids, three_bids};

/// `sale SALE SERVERS` names the first bidder whose bid is at least every other, and the greatest bid of the others, or
/// says that the masks are spent, exactly if they are, and after how many rounds. A server of this sale that has ended
/// has ended so, whatever the order of the messages.
pub fn what_sale_says_is_the_plain_sale()
    ensures { (files : List File) (sale servers : List ℕ) (call : Call) →
        IsDoneSale files (sale_words sale servers) call → SaysTheSale files sale servers call }
{}

/// `pair SALE1 SALE2 SERVERS SERVER OUT` puts what the server sees of both sales, which is the same, and the only words
/// of the second that go with those of the first.
pub fn what_pair_puts_looks_the_same()
    ensures { (files : List File) (sale1 sale2 servers server out : List ℕ) (call : Call) →
        IsDoneSale files (pair_words sale1 sale2 servers server out) call →
        (s : Point) × (server_of server ≡ Some s) × PutsBothSales files sale1 sale2 servers s out call }
{}

/// If it ends with status 7 over files that read as two sales, these do not agree for the server, and the line tells
/// the first thing that tells them apart.
pub fn what_pair_refuses_does_not_agree()
    ensures { (files : List File) (sale1 sale2 servers server out : List ℕ) (both : Both) (call : Call) →
        RunsSale files (pair_words sale1 sale2 servers server out) call →
        ReadsTo files (both_errand sale1 sale2 servers) both → call.status ≡ 7 →
        (s : Point) × (server_of server ≡ Some s) × RefusesBothSales s both call }
{}

/// If the files that a job reads are held and right, words suffice, two sales agree for the server, and no count of
/// faults rises, the job ends with status 0 or 6 and has left exactly what is due, or memory ran out. If the masks
/// suffice besides, the status is 0.
pub fn what_is_right_is_done()
    ensures sale { (files : List File) (sale servers : List ℕ) (call : Call) →
        RunsSaleWithoutFault files (sale_words sale servers) call →
        CanHoldSale files sale servers → IsDoneOrShort call }
    ensures sale_whole { (files : List File) (sale servers : List ℕ) (read : SaleRead) (call : Call) →
        RunsSaleWithoutFault files (sale_words sale servers) call →
        ReadsTo files (sale_errand sale servers) read →
        IsWholeOrShort (SaysTheSale files sale servers call) call }
    ensures pair { (files : List File) (sale1 sale2 servers server out : List ℕ) (call : Call)
        (can : CanPair files sale1 sale2 servers server) →
        RunsSaleWithoutFault files (pair_words sale1 sale2 servers server out) call →
        MasksSufficeIn can.both.value.first → IsDoneOrShort call }
    ensures pair_whole { (files : List File) (sale1 sale2 servers server out : List ℕ) (call : Call)
        (can : CanPair files sale1 sale2 servers server) →
        RunsSaleWithoutFault files (pair_words sale1 sale2 servers server out) call →
        IsWholeOrShort (PutsBothSales files sale1 sale2 servers can.s out call) call }
{}

/// The premises of the laws of two sales can be met. Bids of 700, 900 and 800 and bids of 700, 950 and 800 that no
/// server knows differ in the winning bid alone, and so they agree for each server. Sales of another price or of
/// another winner do not agree, nor do those of which the server knows the winning bid.
pub fn sales_agree_but_for_the_winning_bid()
    ensures bid { (s : Point) → DifferInTheWinningBid s (three_bids 700 900 800) (three_bids 700 950 800) }
    ensures price { (s : Point) → Agree s (three_bids 700 900 800) (three_bids 700 900 801) → ⊥ }
    ensures winner { (s : Point) → Agree s (three_bids 700 900 800) (three_bids 900 700 800) → ⊥ }
    ensures known { (s : Point) → Agree s (known_bids s 700 900 800) (known_bids s 700 950 800) → ⊥ }
{}
