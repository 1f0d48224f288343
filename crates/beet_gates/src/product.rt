//! A small script for tests: the product of two inputs is opened.

use crate::{Act, Batch, Script};
use arrayvec::ArrayVec;
use beet_field::Fe;

/// The script that opens the product of its two inputs. It is for tests of what runs scripts.
#[derive(Clone, Copy, PartialEq, Eq, Debug)]
pub struct Product;

impl Script<3> for Product {
    ghost use Rattle.std.specs.Prelude.{⊤};
    ghost use Rattle.std.proofs.Common.{rules};
    ghost use Rattle.beet_gates.specs.Product.{product_batch};

    type Place = ();

    ghost inputs_of = { λ _. 2 };

    ghost rounds_of = { λ _. 2 };

    ghost masks_of = { λ _. 0 };

    ghost secrets_of = { λ _. 1 };

    ghost wires_of = { λ _. 3 };

    ghost batch_of = { λ _ done _. product_batch done };

    ghost is_at = { λ _ _ _ _. ⊤ };

    ghost goes_on = { λ _ _ _ _ _ _ there _. there };

    ghost lawful = { Prim.search rules };

    fn inputs(&self) -> u32 {
        2
    }

    fn rounds(&self) -> u32 {
        2
    }

    fn masks(&self) -> u32 {
        0
    }

    fn secrets(&self) -> u32 {
        1
    }

    fn wires(&self) -> u32 {
        self.inputs() + 1
    }

    fn next(&self, done: u32, _opened: &[Fe]) -> Batch {
        let act = match done {
            0 => {
                let mut pairs = ArrayVec::new();
                pairs.push((0, 1));
                Act::Mul(pairs)
            }
            1 => {
                let mut wires = ArrayVec::new();
                wires.push(2);
                Act::Reveal(wires)
            }
            _ => Act::End,
        };
        Batch {
            lets: ArrayVec::new(),
            act,
        }
    }

    fn begin(&self) {}
}
