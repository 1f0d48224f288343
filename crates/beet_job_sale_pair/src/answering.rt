//! The answer for two sales.

ghost use Rattle.std.specs.Prelude.{◌≡◌, IfErr, IfOk};
ghost use Rattle.beet_words.specs.Bundles.{bundle_bytes};
ghost use Rattle.beet_job_sale_pair.specs.Answering.{agreed_answer, transcript_of};
ghost use Rattle.beet_job_sale_pair.specs.Ending.{AnswersSales};

use crate::refusing::refuse_sales;
use beet_errand::{Reply, Stop};
use beet_field::Point;
use beet_highbid::sale_map;
use beet_job_sale::sale_reply;
use beet_sale_file::Sale;
use beet_sale_load::SaleWithWords;
use beet_sale_run::{SeenSale, see_sale};
use beet_words::write_bundle;
use std::alloc::{AllocError, Global};

/// The bundle of the words of a sale.
fn words_file(alloc: Global, whole: &SaleWithWords) -> Result<Vec<u8>, AllocError>
    ensures { IfOk result (λ file. file.items ≡ bundle_bytes whole.now.words) }
{
    // A sale has so few bidders that its lists of words are short enough for a bundle.
    let _within_limits = whole.sale.rows();
    write_bundle(alloc, &whole.words)
}

/// Holds both of two sales that agree, and answers with both transcripts and the words of the second.
fn agreed_reply(
    alloc: Global,
    me: Point,
    out: &str,
    first: &SaleWithWords,
    second: &SaleWithWords,
) -> Result<Reply, Stop>
    requires { transcript_of second.now.sale second.now.words me ≡ transcript_of first.now.sale first.now.words me }
    ensures memory { IfErr result (λ stop. stop ≡ Stop.OutOfMemory) }
    ensures answer { IfOk result (λ reply. reply ≡ agreed_answer out.now first.now
        (transcript_of first.now.sale first.now.words me) second.now.words) }
{
    let first_seen = see_sale(alloc, me, first)?;
    let second_seen = see_sale(alloc, me, second)?;
    let words = words_file(alloc, second)?;
    let SeenSale {
        end,
        rounds,
        transcript,
    } = first_seen;
    let reply = sale_reply(alloc, first.sale.rows(), end, rounds)?;
    Ok(reply.telling_worlds(alloc, out, transcript, second_seen.transcript, words)?)
}

/// The answer for two sales with the same gates: they are refused if they do not agree for server `me`.
pub(crate) fn answer_both(
    alloc: Global,
    me: Point,
    out: &str,
    first: &SaleWithWords,
    second: Sale,
) -> Result<Reply, Stop>
    requires { second.gates ≡ first.now.sale.gates }
    ensures { AnswersSales me out.now first.now second result }
{
    match sale_map(alloc, me, &first.sale, &second, &first.words) {
        Ok(words) => {
            let second = SaleWithWords {
                sale: second,
                words,
            };
            let reply = agreed_reply(alloc, me, out, first, &second);
            drop(second);
            reply
        }
        Err(fault) => Err(refuse_sales(alloc, fault)),
    }
}
