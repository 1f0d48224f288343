//! The block of a mask: each of three servers deals the bits of one word, and the mask is the exclusive or of the
//! words.
//!
//! The product of the bits of the mask is opened. If it is 1, all bits are 1 and the mask is to be rejected.
#![tactic(auto)]

ghost use Rattle.std.specs.Prelude.{◌≡◌, ◌<◌, ◌≤◌, ◌+◌, ◌-◌, ◌*◌, ◌^◌, ◌↔◌, ℕ, List, [], ◌∷◌, length, slice_get};
ghost use Rattle.std.specs.Prelude.{slice_index, IsNone};
ghost use Rattle.beet_field.specs.Field.{p};
ghost use Rattle.beet_field.specs.declared.TheConstants.{MOST_NUMBERS};
ghost use Rattle.beet_gates.specs.Batches.{mul_batch};
ghost use Rattle.beet_gates.specs.Plans.{batch_at};
ghost use Rattle.beet_gates.specs.Clear.{Values, batches_on};
ghost use Rattle.beet_gates.specs.Each.{each};
ghost use Rattle.beet_gates.specs.Levels.{places_of_pair, wire_of};
ghost use Rattle.beet_mask.specs.Mask.{AfterMask, bit_wire_of, bits_of, chain_batches, left_after, lets_after};
ghost use Rattle.beet_mask.specs.Mask.{level_wire, mask_batches, mask_rounds_of, mask_wires_of, product_batches};
ghost use Rattle.beet_mask.specs.Mask.{xor_let, xor_of};

use arrayvec::ArrayVec;
use beet_field::{Fe, MINUS_TWO, MOST_NUMBERS};
use beet_gates::{
    Act, Batch, Gates, LevelItems, Linear, MASK_WIRES, MOST_LETS, WIRES_BEFORE_BITS, level_pairs,
};

/// The rounds of the product of the bits with chain gates: one for each bit from the second on, and the opening.
const CHAIN_ROUNDS: u32 = 61;

/// The rounds of the product of the bits with tree gates: one for each level of the tree, and the opening.
const TREE_ROUNDS: u32 = 7;

/// The most words of a mask.
pub const MOST_WORDS: u32 = 5;

/// How many rounds a block of so many words takes: the deal, a product with each word but the first, and the product of
/// the bits.
pub fn mask_rounds(gates: Gates, words: u32) -> u32
    requires { words ≤ MOST_WORDS }
    ensures { result ≡ mask_rounds_of gates words }
{
    match gates {
        Gates::Chain => words + CHAIN_ROUNDS,
        Gates::Tree => words + TREE_ROUNDS,
    }
}

/// How many wires a block of so many words appends.
pub fn mask_wires(words: u32) -> u32
    requires some { 1 ≤ words }
    requires few { words ≤ MOST_WORDS }
    ensures { result ≡ mask_wires_of words }
{
    61 * words + 122 * (words - 1) + 60
}

/// Where the exclusive or of the words so far has its bits after so many products with a word, in a block whose first
/// wire is `first`.
fn left_wire(words: u32, products: u32, first: u32) -> u32
    requires few { words ≤ MOST_WORDS }
    requires within { products < words }
    requires first { first + mask_wires_of words < 2 ^ 32 }
    ensures { result ≡ left_after first (first + 61 * words) products }
{
    if products == 0 {
        first
    } else {
        first + 61 * words + 122 * (products - 1) + 61
    }
}

/// The wire of bit `k` of the mask of three words whose block begins at the wire `first`.
pub fn bit_wire(first: u32, k: u32) -> u32
    requires first { first + MASK_WIRES < 2 ^ 32 }
    requires bit { k < 61 }
    ensures { result ≡ bit_wire_of first k }
{
    first + WIRES_BEFORE_BITS + k
}

/// The bits of two words in pairs.
#[tactic(auto, using(beet_gates::proofs::EachFacts::each_steps))]
fn bit_pairs(left: u32, right: u32) -> ArrayVec<(u32, u32), MOST_NUMBERS>
    requires left { left + 61 < 2 ^ 32 }
    requires right { right + 61 < 2 ^ 32 }
    ensures { result.items ≡ each (λ k. (left + k, right + k)) 61 }
{
    let mut pairs = ArrayVec::new();
    for k in 0..61 {
        pairs.push((left + k, right + k));
    }
    pairs
}

/// The exclusive or of two bits, from their product.
fn exclusive_or(minus_two: Fe, left: u32, right: u32, product: u32) -> Linear
    requires { minus_two ≡ p - 2 }
    ensures { result ≡ xor_let left right product }
{
    Linear {
        constant: Fe::reduce(0),
        terms: [
            (Fe::reduce(1), left),
            (Fe::reduce(1), right),
            (minus_two, product),
        ],
    }
}

/// Appends the exclusive or of two words, bit by bit, from the products of their bits.
#[tactic(auto, using(beet_gates::proofs::EachFacts::each_steps))]
fn add_bit_sums(left: u32, right: u32, product: u32, lets: &mut ArrayVec<Linear, MOST_LETS>)
    requires none { lets.old.items ≡ [] }
    requires left { left + 61 < 2 ^ 32 }
    requires right { right + 61 < 2 ^ 32 }
    requires product { product + 61 < 2 ^ 32 }
    ensures { lets.new.items ≡ each (λ k. xor_let (left + k) (right + k) (product + k)) 61 }
{
    let minus_two = Fe::reduce(MINUS_TWO);
    for k in 0..61 {
        lets.push(exclusive_or(minus_two, left + k, right + k, product + k));
    }
}

/// Multiplies two words bit by bit, after the same lets.
fn set_words_product(batch: &mut Batch, left: u32, right: u32)
    requires left { left + 61 < 2 ^ 32 }
    requires right { right + 61 < 2 ^ 32 }
    ensures { batch.new ≡ mul_batch batch.old.lets.items (each (λ k. (left + k, right + k)) 61) }
{
    batch.act = Act::Mul(bit_pairs(left, right));
}

/// Appends the exclusive or that is formed after so many products with a word.
fn add_sums(words: u32, products: u32, first: u32, lets: &mut ArrayVec<Linear, MOST_LETS>)
    requires none { lets.old.items ≡ [] }
    requires few { words ≤ MOST_WORDS }
    requires within { products < words }
    requires first { first + mask_wires_of words < 2 ^ 32 }
    ensures { lets.new.items ≡ lets_after [] first (first + 61) (first + 61 * words) products }
{
    if products > 0 {
        let before = products - 1;
        add_bit_sums(
            left_wire(words, before, first),
            first + 61 + 61 * before,
            first + 61 * words + 122 * before,
            lets,
        );
    }
}

/// Makes a batch the product with one more word, after so many of them.
fn refill_words(words: u32, products: u32, first: u32, batch: &mut Batch)
    requires none { batch.old.lets.items ≡ [] }
    requires few { words ≤ MOST_WORDS }
    requires within { products + 1 < words }
    requires first { first + mask_wires_of words < 2 ^ 32 }
    ensures { batch.new ≡ mul_batch (lets_after [] first (first + 61) (first + 61 * words) products)
        (each (λ k. (left_after first (first + 61 * words) products + k, first + 61 + 61 * products + k)) 61) }
{
    add_sums(words, products, first, &mut batch.lets);
    set_words_product(
        batch,
        left_wire(words, products, first),
        first + 61 + 61 * products,
    );
}

/// Makes a batch the one at this step of the product of bits, with chain gates, or the end past it; it has the lets of
/// the first step.
fn refill_chain(step: u32, bits: u32, batch: &mut Batch)
    requires none { 0 < step → batch.old.lets.items ≡ [] }
    requires bits { bits + 121 < 2 ^ 32 }
    ensures { batch.new ≡ batch_at (chain_batches batch.old.lets.items bits) step }
{
    match step {
        0 => batch.set_product(bits, bits + 1),
        1..=59 => batch.set_product(bits + 60 + step, bits + (step + 1)),
        60 => batch.set_opening(bits + 120),
        _ => batch.set_end(),
    }
}

/// `K` products of a list in pairs.
fn products_in_pairs<const K: usize>(items: LevelItems) -> ArrayVec<(u32, u32), MOST_NUMBERS>
    requires few { K ≤ MOST_NUMBERS }
    requires wires { items.start + items.step * items.results ≤ 2 ^ 32 }
    ensures { result.items ≡ each (λ i. (wire_of items (places_of_pair i).0, wire_of items (places_of_pair i).1)) K }
{
    let places = level_pairs::<K>();
    let mut pairs = ArrayVec::new();
    for (left, right) in &places {
        pairs.push((items.wire(*left), items.wire(*right)));
    }
    pairs
}

/// Multiplies a level of a tree, whose list has so many results from a wire on, after the same lets. What is carried is
/// the last bit.
fn set_level<const K: usize>(batch: &mut Batch, bits: u32, start: u32, results: u32)
    requires few { K ≤ MOST_NUMBERS }
    requires bits { bits + 121 < 2 ^ 32 }
    requires start { start + results ≤ bits + 121 }
    ensures { batch.new ≡ mul_batch batch.old.lets.items
        (each (λ i.
        (level_wire bits start results (places_of_pair i).0, level_wire bits start results (places_of_pair i).1)) K) }
{
    batch.act = Act::Mul(products_in_pairs::<K>(LevelItems {
        start,
        step: 1,
        results,
        carried: bits + 60,
    }));
}

/// Makes a batch the one at this step of the product of bits, with tree gates, or the end past it; it has the lets of
/// the first step.
fn refill_tree(step: u32, bits: u32, batch: &mut Batch)
    requires none { 0 < step → batch.old.lets.items ≡ [] }
    requires bits { bits + 121 < 2 ^ 32 }
    ensures { batch.new ≡ batch_at (product_batches Gates.Tree batch.old.lets.items bits) step }
{
    match step {
        0 => set_level::<30>(batch, bits, bits, 61),
        1 => set_level::<15>(batch, bits, bits + 61, 30),
        2 => set_level::<8>(batch, bits, bits + 91, 15),
        3 => set_level::<4>(batch, bits, bits + 106, 8),
        4 => set_level::<2>(batch, bits, bits + 114, 4),
        5 => set_level::<1>(batch, bits, bits + 118, 2),
        6 => batch.set_opening(bits + 120),
        _ => batch.set_end(),
    }
}

/// Makes a batch the one at this step of the product of bits, or the end past it; it has the lets of the first step.
fn refill_product(gates: Gates, step: u32, bits: u32, batch: &mut Batch)
    requires none { 0 < step → batch.old.lets.items ≡ [] }
    requires bits { bits + 121 < 2 ^ 32 }
    ensures { batch.new ≡ batch_at (product_batches gates batch.old.lets.items bits) step }
{
    match gates {
        Gates::Chain => refill_chain(step, bits, batch),
        Gates::Tree => refill_tree(step, bits, batch),
    }
}

/// Makes a batch the one at this step after the products with words, or the end past it.
fn refill_bits(gates: Gates, step: u32, words: u32, first: u32, batch: &mut Batch)
    requires none { batch.old.lets.items ≡ [] }
    requires some { 1 ≤ words }
    requires few { words ≤ MOST_WORDS }
    requires first { first + mask_wires_of words < 2 ^ 32 }
    ensures { batch.new ≡ batch_at (product_batches gates
        (lets_after [] first (first + 61) (first + 61 * words) (words - 1))
        (left_after first (first + 61 * words) (words - 1))) step }
{
    if step == 0 {
        add_sums(words, words - 1, first, &mut batch.lets);
    }
    refill_product(gates, step, left_wire(words, words - 1, first), batch);
}

/// Makes a batch the one at this step of a block of so many words whose first wire is `first`, or the end past it.
pub fn refill_mask(gates: Gates, words: u32, step: u32, first: u32, batch: &mut Batch)
    requires some { 2 ≤ words }
    requires few { words ≤ MOST_WORDS }
    requires first { first + mask_wires_of words < 2 ^ 32 }
    ensures { batch.new ≡ batch_at (mask_batches gates words first) step }
{
    batch.lets.clear();
    if step == 0 {
        batch.set_deal();
    } else if step < words {
        refill_words(words, step - 1, first, batch);
    } else {
        refill_bits(gates, step - words, words, first, batch);
    }
}

/// The batch at this step of a block of so many words whose first wire is `first`, or none past its end.
pub fn mask_batch(gates: Gates, words: u32, step: u32, first: u32) -> Option<Batch>
    requires some { 2 ≤ words }
    requires few { words ≤ MOST_WORDS }
    requires first { first + mask_wires_of words < 2 ^ 32 }
    ensures batch { result ≡ slice_get (mask_batches gates words first) step }
    ensures past { IsNone result ↔ (mask_rounds_of gates words ≤ step) }
{
    if step >= mask_rounds(gates, words) {
        return None;
    }
    let mut batch = Batch::end();
    refill_mask(gates, words, step, first, &mut batch);
    Some(batch)
}

/// What a block does on plain values, wherever it stands and whatever was opened before it: if two words or more are
/// dealt, the wires of the mask are the bits of their exclusive or, and the opened number is 1 exactly if all 61 are
/// 1.
pub fn mask_law()
    ensures { (deals : ℕ → List ℕ) (gates : Gates) (first a b : ℕ) (ws : List ℕ) (before : Values) →
        ((i : ℕ) → slice_index (a ∷ b ∷ ws) i < 2 ^ 61) → length before.wires ≡ first →
        deals before.dealt ≡ bits_of (a ∷ b ∷ ws) →
        AfterMask (2 + length ws) first (xor_of (a ∷ b ∷ ws)) before
        (batches_on deals (mask_batches gates (2 + length ws) first) before) }
{}
