//! What one server can tell of a sale: laws, which are contracts of functions that do nothing.

ghost use Rattle.beet_field.specs.declared.point.Point.{Point};
ghost use Rattle.beet_gates.specs.declared.Gates.{Gates};
ghost use Rattle.beet_words.specs.Bundles.{Words};
ghost use Rattle.std.specs.Prelude.{List};
ghost use Rattle.beet_sale_file.specs.declared.rows.SaleBid.{SaleBid};
ghost use Rattle.beet_sale_map.specs.Worlds.{Mapped};
ghost use Rattle.beet_sale_map.specs.Bids.{AreTwoSales};
ghost use Rattle.beet_highbid.specs.SalePairs.{AreOneSalePair, CanSell, DifferInTheWinningBid};

/// Two sales agree for a server if they have as many bidders with the same marks, the same bids of the server's own,
/// and the same winner and price. Then all words with which the first can be run go with exactly one choice of words of
/// the second, and all words of the second with exactly one choice of the first. Whatever the words, the server's
/// transcripts are the same bytes in both. Words that are mapped, as `sale_map` answers them, are such a pair. So a
/// server that does not know the winner's bid cannot tell it from any other bid that gives the same winner and price.
pub fn sales_that_sell_alike_look_the_same()
    ensures second { (s : Point) (gates : Gates) (first second : List SaleBid) (words : Words) →
        AreTwoSales s first second → CanSell first words →
        (words' : Words) × AreOneSalePair s gates first words second words' }
    ensures first { (s : Point) (gates : Gates) (first second : List SaleBid) (words' : Words) →
        AreTwoSales s first second → CanSell second words' →
        (words : Words) × AreOneSalePair s gates first words second words' }
    ensures mapped { (s : Point) (gates : Gates) (first second : List SaleBid) (words words' : Words) →
        AreTwoSales s first second → CanSell first words → Mapped s gates first words second words' →
        AreOneSalePair s gates first words second words' }
{}

/// Every winning bid that gives the same winner and price looks alike to a server that does not know the winner: there
/// is a bijection of the words of the one sale and of the other under which the server's transcripts are equal.
pub fn winning_bids_look_alike()
    ensures agree { (s : Point) (first second : List SaleBid) → DifferInTheWinningBid s first second →
        AreTwoSales s first second }
    ensures second { (s : Point) (gates : Gates) (first second : List SaleBid) (words : Words) →
        DifferInTheWinningBid s first second → CanSell first words →
        (words' : Words) × AreOneSalePair s gates first words second words' }
    ensures first { (s : Point) (gates : Gates) (first second : List SaleBid) (words' : Words) →
        DifferInTheWinningBid s first second → CanSell second words' →
        (words : Words) × AreOneSalePair s gates first words second words' }
{}
