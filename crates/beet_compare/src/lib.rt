//! The block of a comparison: with an accepted mask it tells whether the summed supply reaches the summed demand, and
//! nothing else.
//!
//! It opens twice the difference with the mask added, modulo p, and then 1 if supply reaches demand, else 0.
#![tactic(auto)]

ghost use Rattle.std.specs.Prelude.{◌≡◌, ◌<◌, ◌≤◌, ◌+◌, ◌-◌, ◌*◌, ◌^◌, ◌↔◌, ℕ, List, [], ◌∷◌, ◌++◌, length, slice_get};
ghost use Rattle.std.specs.Prelude.{IsNone, IsTrue};
ghost use Rattle.std.specs.Int.{bit_at};
ghost use Rattle.beet_field.specs.Field.{IsElement, add_of};
ghost use Rattle.beet_gates.specs.Batches.{mul_batch};
ghost use Rattle.beet_gates.specs.Plans.{batch_at};
ghost use Rattle.beet_gates.specs.Clear.{Values, batches_on};
ghost use Rattle.beet_gates.specs.Each.{each};
ghost use Rattle.beet_gates.specs.Levels.{wire_of};
ghost use Rattle.beet_gates.specs.declared.TheConstants.{MOST_LETS};
ghost use Rattle.beet_gates.specs.Linears.{three_terms, two_terms};
ghost use Rattle.beet_compare.specs.Compare.{compare_rounds_of, compare_wires_of, masked_batch, same_let, lowest_batch};
ghost use Rattle.beet_compare.specs.Compare.{bit_batch, low_bit_batch, answer_batch, last_let, chain_batches};
ghost use Rattle.beet_compare.specs.Compare.{borrow_lets, level_products, level_lets, bits_less, bits_same, level_less};
ghost use Rattle.beet_compare.specs.Compare.{level_same, borrow_batches, compare_batches, doubled, is_doubled_even};
ghost use Rattle.beet_compare.specs.Compare.{BeforeCompare, AfterCompare};

use arrayvec::ArrayVec;
use beet_field::{Fe, MINUS_ONE, MINUS_TWO, MOST_NUMBERS};
use beet_gates::{
    Act, Batch, Gates, LevelItems, Linear, MASK_WIRES, MOST_LETS, WIRES_BEFORE_BITS, level_pairs,
};

/// The rounds of a block with chain gates: the opening of the masked difference, one for each bit, and the opening of
/// the answer.
const CHAIN_ROUNDS: u32 = 63;

/// The rounds of a block with tree gates: the opening of the masked difference, one for each level, one for the low
/// bit, and the opening of the answer.
const TREE_ROUNDS: u32 = 9;

/// The wires of a block with chain gates.
const CHAIN_WIRES: u32 = 245;

/// The wires of a block with tree gates.
const TREE_WIRES: u32 = 366;

/// How many rounds a block takes.
pub fn compare_rounds(gates: Gates) -> u32
    ensures { result ≡ compare_rounds_of gates }
{
    match gates {
        Gates::Chain => CHAIN_ROUNDS,
        Gates::Tree => TREE_ROUNDS,
    }
}

/// How many wires a block appends.
pub fn compare_wires(gates: Gates) -> u32
    ensures { result ≡ compare_wires_of gates }
{
    match gates {
        Gates::Chain => CHAIN_WIRES,
        Gates::Tree => TREE_WIRES,
    }
}

/// A combination of three wires, each after its factor.
fn sum(constant: Fe, x: (u128, u32), y: (u128, u32), z: (u128, u32)) -> Linear
    requires x { IsElement x.0 }
    requires y { IsElement y.0 }
    requires z { IsElement z.0 }
    ensures { result ≡ three_terms constant x y z }
{
    Linear {
        constant,
        terms: [
            (Fe::reduce(x.0), x.1),
            (Fe::reduce(y.0), y.1),
            (Fe::reduce(z.0), z.1),
        ],
    }
}

/// The bit of the number at the place.
fn bit(c: Fe, k: u32) -> u128
    requires { k < 61 }
    ensures { result ≡ bit_at c k }
{
    ((c.value() >> k) & 1) as u128
}

/// The wire if the bit is 1, and 1 less the wire if it is 0.
fn same(bit: u128, wire: u32) -> Linear
    ensures { result ≡ same_let bit wire }
{
    if bit == 1 {
        sum(Fe::reduce(0), (1, wire), (0, 0), (0, 0))
    } else {
        sum(Fe::reduce(1), (MINUS_ONE, wire), (0, 0), (0, 0))
    }
}

/// The borrow past a bit of c and a wire with the same bit of the mask; `below` has the borrow that comes from below.
fn borrow_past(c_bit: u128, wire: u32, below: (u128, u32)) -> Linear
    requires bit { c_bit < 2 }
    requires below { IsElement below.0 }
    ensures { result ≡ two_terms 0 (1 - c_bit, wire) below }
{
    sum(Fe::reduce(0), (1 - c_bit, wire), below, (0, 0))
}

/// Multiplies the second combination and the first, which are the first wires of the batch.
fn set_product_of_two(batch: &mut Batch, first: Linear, second: Linear, start: u32)
    requires { start + 1 < 2 ^ 32 }
    ensures { batch.new ≡ mul_batch (first ∷ second ∷ []) ((start + 1, start) ∷ []) }
{
    batch.lets.clear();
    batch.add_let(first.constant, first.terms);
    batch.add_let(second.constant, second.terms);
    batch.set_product(start + 1, start);
}

/// The combinations of the mask's high bits, from place 58 down.
#[tactic(auto, using(beet_gates::proofs::EachFacts::each_steps))]
fn high_bits(first: u32, mask: u32, lets: &mut ArrayVec<Linear, MOST_LETS>)
    requires room { length lets.old.items ≤ 1 }
    requires first { first + 60 < 2 ^ 32 }
    requires mask { mask + MASK_WIRES < 2 ^ 32 }
    ensures count { length lets.new.items ≡ length lets.old.items + 59 }
    ensures items { lets.new.items
        ≡ lets.old.items ++ each (λ k. two_terms 0 (2, first + k) (1, mask + WIRES_BEFORE_BITS + (58 - k))) 59 }
{
    let zero = Fe::reduce(0);
    for k in 0..59 {
        lets.push(sum(
            zero,
            (2, first + k),
            (1, mask + WIRES_BEFORE_BITS + (58 - k)),
            (0, 0),
        ));
    }
}

/// Opens the masked difference.
fn set_masked(batch: &mut Batch, first: u32, mask: u32, supply: u32, demand: u32)
    requires first { first + TREE_WIRES < 2 ^ 32 }
    requires mask { mask + MASK_WIRES < 2 ^ 32 }
    ensures { batch.new ≡ masked_batch first mask supply demand }
{
    let zero = Fe::reduce(0);
    batch.lets.clear();
    batch.lets.push(sum(
        zero,
        (2, mask + WIRES_BEFORE_BITS + 60),
        (1, mask + WIRES_BEFORE_BITS + 59),
        (0, 0),
    ));
    high_bits(first, mask, &mut batch.lets);
    batch.lets.push(sum(zero, (2, supply), (MINUS_TWO, demand), (1, first + 59)));
    batch.set_opening(first + 60);
}

/// The batch of bit 1, below which there is no product yet.
fn set_lowest_bit(batch: &mut Batch, first: u32, mask: u32, c: Fe)
    requires first { first + TREE_WIRES < 2 ^ 32 }
    requires mask { mask + MASK_WIRES < 2 ^ 32 }
    ensures { batch.new ≡ lowest_batch first mask c }
{
    set_product_of_two(
        batch,
        borrow_past(bit(c, 0), mask + WIRES_BEFORE_BITS, (0, 0)),
        same(bit(c, 1), mask + WIRES_BEFORE_BITS + 1),
        first + 61,
    );
}

/// The batch of bit `j + 2`.
fn set_next_bit(batch: &mut Batch, first: u32, mask: u32, c: Fe, j: u32)
    requires first { first + TREE_WIRES < 2 ^ 32 }
    requires mask { mask + MASK_WIRES < 2 ^ 32 }
    requires bit { j < 59 }
    ensures { batch.new ≡ bit_batch first mask c j }
{
    set_product_of_two(
        batch,
        borrow_past(
            bit(c, j + 1),
            mask + WIRES_BEFORE_BITS + (j + 1),
            (1, first + 63 + 3 * j),
        ),
        same(bit(c, j + 2), mask + WIRES_BEFORE_BITS + (j + 2)),
        first + 64 + 3 * j,
    );
}

/// Appends the low bit of the difference, which is the wire `low`, and multiplies it and the whole borrow.
fn set_last_product(batch: &mut Batch, borrow: u32, low: u32, mask: u32, c: Fe)
    requires room { length batch.old.lets.items < MOST_LETS }
    requires mask { mask + MASK_WIRES < 2 ^ 32 }
    ensures { batch.new ≡ low_bit_batch batch.old.lets.items borrow low mask c }
{
    let low_bit = same(1 - bit(c, 0), mask + WIRES_BEFORE_BITS);
    batch.add_let(low_bit.constant, low_bit.terms);
    batch.set_product(low, borrow);
}

/// Opens the answer, from the wires of the whole borrow and the low bit of the difference.
fn set_answer(batch: &mut Batch, borrow: u32, low: u32)
    requires { low + 2 < 2 ^ 32 }
    ensures { batch.new ≡ answer_batch borrow low }
{
    batch.lets.clear();
    batch.lets.push(sum(
        Fe::reduce(1),
        (MINUS_ONE, low),
        (MINUS_ONE, borrow),
        (2, low + 1),
    ));
    batch.set_opening(low + 2);
}

/// The batch of the whole borrow of a chain and the low bit of the difference.
fn set_last_bit(batch: &mut Batch, first: u32, mask: u32, c: Fe)
    requires first { first + TREE_WIRES < 2 ^ 32 }
    requires mask { mask + MASK_WIRES < 2 ^ 32 }
    ensures { batch.new ≡ low_bit_batch (last_let first mask c ∷ []) (first + 241) (first + 242) mask c }
{
    let last = borrow_past(bit(c, 60), mask + WIRES_BEFORE_BITS + 60, (1, first + 240));
    batch.lets.clear();
    batch.add_let(last.constant, last.terms);
    set_last_product(batch, first + 241, first + 242, mask, c);
}

/// Makes a batch the one at this step after c was opened, with chain gates, or the end past it.
fn refill_chain(step: u32, first: u32, mask: u32, c: Fe, batch: &mut Batch)
    requires first { first + TREE_WIRES < 2 ^ 32 }
    requires mask { mask + MASK_WIRES < 2 ^ 32 }
    ensures { batch.new ≡ batch_at (chain_batches first mask c) step }
{
    match step {
        0 => set_lowest_bit(batch, first, mask, c),
        1..=59 => set_next_bit(batch, first, mask, c, step - 1),
        60 => set_last_bit(batch, first, mask, c),
        61 => set_answer(batch, first + 241, first + 242),
        _ => batch.set_end(),
    }
}

/// Wires of a tree's bits, which stand by turns.
fn bits_from(start: u32, carried: u32) -> LevelItems
    ensures { result ≡ record { start = start; step = 2; results = 61; carried = carried } }
{
    LevelItems {
        start,
        step: 2,
        results: 61,
        carried,
    }
}

/// The wires of the borrows of a tree's bits.
fn bits_less(first: u32) -> LevelItems
    requires { first + TREE_WIRES < 2 ^ 32 }
    ensures { result ≡ bits_less first }
{
    bits_from(first + 61, first + 181)
}

/// The wires that tell whether the bits of a tree are the same.
fn bits_same(first: u32) -> LevelItems
    requires { first + TREE_WIRES < 2 ^ 32 }
    ensures { result ≡ bits_same first }
{
    bits_from(first + 62, first + 182)
}

/// The wires of the borrows after a level with so many results, whose products begin at a wire.
fn level_less(first: u32, products: u32, results: u32) -> LevelItems
    requires first { first + TREE_WIRES < 2 ^ 32 }
    requires products { products + 3 * results < first + TREE_WIRES }
    ensures { result ≡ level_less first products results }
{
    LevelItems {
        start: products + 2 * results,
        step: 1,
        results,
        carried: first + 181,
    }
}

/// The wires that tell whether segments are the same, after a level with so many results, whose products begin at a
/// wire.
fn level_same(first: u32, products: u32, results: u32) -> LevelItems
    requires first { first + TREE_WIRES < 2 ^ 32 }
    requires products { products + 3 * results < first + TREE_WIRES }
    ensures { result ≡ level_same first products results }
{
    LevelItems {
        start: products + 1,
        step: 2,
        results,
        carried: first + 182,
    }
}

/// The borrow of each bit, and whether c and the mask have it the same.
fn add_bits(mask: u32, c: Fe, lets: &mut ArrayVec<Linear, MOST_LETS>)
    requires none { lets.old.items ≡ [] }
    requires mask { mask + MASK_WIRES < 2 ^ 32 }
    ensures { lets.new.items ≡ borrow_lets mask c }
{
    for k in 0..61 {
        lets.push(borrow_past(bit(c, k), mask + WIRES_BEFORE_BITS + k, (0, 0)));
        lets.push(same(bit(c, k), mask + WIRES_BEFORE_BITS + k));
    }
}

/// The products of `K` pairs of borrows and equalities.
fn level_products<const K: usize>(
    less: LevelItems,
    same: LevelItems,
) -> ArrayVec<(u32, u32), MOST_NUMBERS>
    requires few { K ≤ 32 }
    requires less { less.start + less.step * less.results ≤ 2 ^ 32 }
    requires same { same.start + same.step * same.results ≤ 2 ^ 32 }
    ensures { result.items ≡ level_products K (wire_of less) (wire_of same) }
{
    let places = level_pairs::<K>();
    let mut pairs = ArrayVec::new();
    for i in 0..K {
        let (low, high) = places[i];
        pairs.push((same.wire(high), less.wire(low)));
        pairs.push((same.wire(high), same.wire(low)));
    }
    pairs
}

/// Appends the borrows of `K` pairs, whose products begin at a wire.
fn add_level_lets<const K: usize>(
    less: LevelItems,
    products: u32,
    lets: &mut ArrayVec<Linear, MOST_LETS>,
)
    requires none { lets.old.items ≡ [] }
    requires few { K ≤ 32 }
    requires less { less.start + less.step * less.results ≤ 2 ^ 32 }
    requires products { products + 2 * K ≤ 2 ^ 32 }
    ensures { lets.new.items ≡ level_lets K (wire_of less) products }
{
    let zero = Fe::reduce(0);
    for (low, high) in &level_pairs::<K>() {
        lets.push(sum(zero, (1, less.wire(*high)), (1, products + *low), (0, 0)));
    }
}

/// The batch of a level with `K` pairs, after a level with `N` pairs of the list `before`, whose products begin at a
/// wire.
fn set_level<const N: usize, const K: usize>(
    batch: &mut Batch,
    first: u32,
    before: LevelItems,
    products: u32,
)
    requires some { N ≤ 32 }
    requires few { K ≤ 32 }
    requires first { first + TREE_WIRES < 2 ^ 32 }
    requires before { before.start + before.step * before.results ≤ 2 ^ 32 }
    requires products { products + 3 * N < first + TREE_WIRES }
    ensures { batch.new ≡ mul_batch (level_lets N (wire_of before) products)
        (level_products K (wire_of (level_less first products N)) (wire_of (level_same first products N))) }
{
    let results = N as u32;
    batch.lets.clear();
    add_level_lets::<N>(before, products, &mut batch.lets);
    batch.act = Act::Mul(level_products::<K>(
        level_less(first, products, results),
        level_same(first, products, results),
    ));
}

/// The first batch of a tree, with the lets of all bits and the products of the first level.
fn set_bits(batch: &mut Batch, first: u32, mask: u32, c: Fe)
    requires first { first + TREE_WIRES < 2 ^ 32 }
    requires mask { mask + MASK_WIRES < 2 ^ 32 }
    ensures { batch.new
        ≡ mul_batch (borrow_lets mask c) (level_products 30 (wire_of (bits_less first)) (wire_of (bits_same first))) }
{
    batch.lets.clear();
    add_bits(mask, c, &mut batch.lets);
    batch.act = Act::Mul(level_products::<30>(bits_less(first), bits_same(first)));
}

/// The batch of a tree's whole borrow and the low bit of the difference.
fn set_last_level(batch: &mut Batch, first: u32, mask: u32, c: Fe)
    requires first { first + TREE_WIRES < 2 ^ 32 }
    requires mask { mask + MASK_WIRES < 2 ^ 32 }
    ensures { batch.new ≡ low_bit_batch (level_lets 1 (wire_of (level_less first (first + 354) 2)) (first + 360))
        (first + 362) (first + 363) mask c }
{
    batch.lets.clear();
    add_level_lets::<1>(
        level_less(first, first + 354, 2),
        first + 360,
        &mut batch.lets,
    );
    set_last_product(batch, first + 362, first + 363, mask, c);
}

/// Makes a batch the one at this step after c was opened, with tree gates, or the end past it.
fn refill_tree(step: u32, first: u32, mask: u32, c: Fe, batch: &mut Batch)
    requires first { first + TREE_WIRES < 2 ^ 32 }
    requires mask { mask + MASK_WIRES < 2 ^ 32 }
    ensures { batch.new ≡ batch_at (borrow_batches Gates.Tree first mask c) step }
{
    match step {
        0 => set_bits(batch, first, mask, c),
        1 => set_level::<30, 15>(batch, first, bits_less(first), first + 183),
        2 => set_level::<15, 8>(
            batch,
            first,
            level_less(first, first + 183, 30),
            first + 273,
        ),
        3 => set_level::<8, 4>(
            batch,
            first,
            level_less(first, first + 273, 15),
            first + 318,
        ),
        4 => set_level::<4, 2>(batch, first, level_less(first, first + 318, 8), first + 342),
        5 => set_level::<2, 1>(batch, first, level_less(first, first + 342, 4), first + 354),
        6 => set_last_level(batch, first, mask, c),
        7 => set_answer(batch, first + 362, first + 363),
        _ => batch.set_end(),
    }
}

/// Makes a batch the one at this step after c was opened, or the end past it.
fn refill_borrow(gates: Gates, step: u32, first: u32, mask: u32, c: Fe, batch: &mut Batch)
    requires first { first + TREE_WIRES < 2 ^ 32 }
    requires mask { mask + MASK_WIRES < 2 ^ 32 }
    ensures { batch.new ≡ batch_at (borrow_batches gates first mask c) step }
{
    match gates {
        Gates::Chain => refill_chain(step, first, mask, c, batch),
        Gates::Tree => refill_tree(step, first, mask, c, batch),
    }
}

/// The wires of a block: its first one, the first of the mask's block, and the two that it compares.
#[derive(Clone, Copy)]
pub struct CompareWires {
    pub first: u32,
    pub mask: u32,
    pub supply: u32,
    pub demand: u32,
}

/// Makes a batch the one at this step of a block with these wires, or the end past it. The block is that of
/// `compare_batch`.
pub fn refill_compare(gates: Gates, step: u32, wires: CompareWires, c: Fe, batch: &mut Batch)
    requires first { wires.first + TREE_WIRES < 2 ^ 32 }
    requires mask { wires.mask + MASK_WIRES < 2 ^ 32 }
    ensures { batch.new
        ≡ batch_at (compare_batches gates wires.first wires.mask wires.supply wires.demand c) step }
{
    match step {
        0 => set_masked(batch, wires.first, wires.mask, wires.supply, wires.demand),
        _ => refill_borrow(gates, step - 1, wires.first, wires.mask, c, batch),
    }
}

/// The batch at this step of a block with these wires, or none past its end. From step 1 on, `c` is the number that
/// step 0 opened.
pub fn compare_batch(gates: Gates, step: u32, wires: CompareWires, c: Fe) -> Option<Batch>
    requires first { wires.first + TREE_WIRES < 2 ^ 32 }
    requires mask { wires.mask + MASK_WIRES < 2 ^ 32 }
    ensures batch { result
        ≡ slice_get (compare_batches gates wires.first wires.mask wires.supply wires.demand c) step }
    ensures past { IsNone result ↔ (compare_rounds_of gates ≤ step) }
{
    if step >= compare_rounds(gates) {
        return None;
    }
    let mut batch = Batch::end();
    refill_compare(gates, step, wires, c, &mut batch);
    Some(batch)
}

/// What a block does on plain values, wherever it stands and whatever was opened before it: with an accepted mask r,
/// and y twice the difference of supply and demand modulo p, it opens y + r modulo p and then 1 exactly if y is
/// even. If the two sums differ by less than 2^59, that is exactly if supply is at least demand.
pub fn compare_law()
    ensures opens { (deals : ℕ → List ℕ) (gates : Gates) (first mask supply demand r s d : ℕ) (before : Values) →
        BeforeCompare first mask supply demand r s d before →
        AfterCompare gates first r s d before
        (batches_on deals (compare_batches gates first mask supply demand (add_of (doubled s d) r)) before) }
    ensures means { (s d : ℕ) → IsElement s → IsElement d → s < d + 2 ^ 59 → d < s + 2 ^ 59 →
        IsTrue (is_doubled_even s d) ↔ (d ≤ s) }
{}
