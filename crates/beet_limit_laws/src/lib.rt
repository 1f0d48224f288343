//! The numbers of the formats and of the blocks of gates, as laws: functions that do nothing, whose contracts say what
//! each named number is. The crates below take a limit or a reason by its name, in the code as in the definitions; so
//! no contract there would notice another value.
#![tactic(auto)]

ghost use Rattle.std.specs.Prelude.{◌≡◌, ◌*◌, ◌^◌, ◌+◌, ◌-◌};
ghost use Rattle.beet_field.specs.declared.TheConstants.{MOST_NUMBERS};
ghost use Rattle.beet_forms.specs.declared.faults.TheConstants.{BAD_HEADER, BAD_ROW, LONGEST_FILE};
ghost use Rattle.beet_forms.specs.declared.names.TheConstants.{LONGEST_NAME};
ghost use Rattle.beet_words.specs.declared.bundle.TheConstants.{BAD_MAGIC, BAD_NUMBER, MOST_BIDDERS, MOST_WORDS};
ghost use Rattle.beet_words.specs.declared.bundle.TheConstants.{TRAILING, TRUNCATED, WRONG_COUNT};
ghost use Rattle.beet_words.specs.declared.tape_file.TheConstants.{BAD_LINE, TAPE_LIMIT, WORD_TOO_LARGE};
ghost use Rattle.beet_gates.specs.declared.Gates.TheVariants.{Chain, Tree};
ghost use Rattle.beet_gates.specs.declared.TheConstants.{MOST_LETS, WIRES_BEFORE_BITS};
ghost use Rattle.beet_bids.specs.declared.auction_file.TheConstants.{AUCTION_LIMIT, BAD_KEY, BAD_VALUE, NOT_ONE_PRICE};
ghost use Rattle.beet_bids.specs.declared.auction_file.TheConstants.{WRONG_VERSION};
ghost use Rattle.beet_bids.specs.declared.bid_file.TheConstants.{BID_LIMIT};
ghost use Rattle.beet_bids.specs.declared.curve.TheConstants.{LARGEST_QUANTITY};
ghost use Rattle.beet_bids.specs.declared.grid.TheConstants.{LARGEST_BASE, LARGEST_TICK, MOST_COMPARISONS, MOST_PRICES};
ghost use Rattle.beet_bids.specs.declared.lines.TheConstants.{BUY_RISES, NO_BASE, NOT_ASCENDING, OFF_GRID};
ghost use Rattle.beet_bids.specs.declared.lines.TheConstants.{QUANTITY_TOO_LARGE, SELL_FALLS};
ghost use Rattle.beet_mask.specs.Mask.{mask_rounds_of, mask_wires_of};
ghost use Rattle.beet_compare.specs.Compare.{compare_rounds_of, compare_wires_of};
ghost use Rattle.beet_masking.specs.declared.TheConstants.{MASK_COEFFICIENTS, SPARE_MASKS, SPARE_WORDS};
ghost use Rattle.beet_sale_plan.specs.declared.TheConstants.{BIDDER_COEFFICIENTS, BIDDER_MASKS, BIDDER_WIRES};
ghost use Rattle.beet_sale_plan.specs.declared.TheConstants.{SELECTION_WIRES};
ghost use Rattle.beet_book.specs.declared.book_file.TheConstants.{BOOK_LIMIT, MOST_PRODUCT, OVER_PRODUCT};
ghost use Rattle.beet_book.specs.declared.entries.TheConstants.{BAD_SOURCE};
ghost use Rattle.beet_book.specs.declared.named_file.TheConstants.{ONE_TOO_MANY, SAME_NAME, TOO_MANY};
ghost use Rattle.beet_book.specs.declared.server_file.TheConstants.{SERVERS_LIMIT};
ghost use Rattle.beet_book.specs.declared.summing.TheConstants.{MOST_IN_BLOCK};
ghost use Rattle.beet_world.specs.declared.schedule.TheConstants.{BAD_DELIVERY, LATEST_ROUND, MOST_DELIVERIES};
ghost use Rattle.beet_world.specs.declared.schedule.TheConstants.{ONE_DELIVERY_TOO_MANY, SCHEDULE_LIMIT};
ghost use Rattle.beet_world.specs.declared.schedule.TheConstants.{TOO_MANY_DELIVERIES};
ghost use Rattle.beet_view.specs.declared.reading.TheConstants.{MOST_ROUNDS};
ghost use Rattle.beet_farmer.specs.declared.envelope.TheConstants.{AFTER_POINTS, BAD_POINT, ENVELOPE_LIMIT};
ghost use Rattle.beet_farmer.specs.declared.envelope.TheConstants.{TRUNCATED_ENVELOPE, WRONG_GRID, WRONG_SERVER};
ghost use Rattle.beet_farmer.specs.declared.list_file.TheConstants.{LIST_LIMIT};
ghost use Rattle.beet_lots.specs.declared.lots.TheConstants.{MOST_LOTS};
ghost use Rattle.beet_lot_files.specs.declared.seed_file.TheConstants.{NOT_SEED};
ghost use Rattle.beet_lot_files.specs.declared.session_file.TheConstants.{ONE_LOT_TOO_MANY, SESSION_LIMIT};
ghost use Rattle.beet_errand.specs.declared.fetching.TheConstants.{TOO_LONG};
ghost use Rattle.beet_job_trial.specs.declared.rules.TheConstants.{BASE, FIRST_SEED, TICK};

/// The limits of files in bytes.
pub fn files_have_these_limits()
    ensures auction { AUCTION_LIMIT ≡ 4096 }
    ensures servers { SERVERS_LIMIT ≡ 4096 }
    ensures book { BOOK_LIMIT ≡ 4194304 }
    ensures list { LIST_LIMIT ≡ 4194304 }
    ensures bid { BID_LIMIT ≡ 1048576 }
    ensures tape { TAPE_LIMIT ≡ 1048576 }
    ensures schedule { SCHEDULE_LIMIT ≡ 16777216 }
    ensures session { SESSION_LIMIT ≡ 65536 }
    ensures envelope { ENVELOPE_LIMIT ≡ 131072 }
    ensures longest { LONGEST_FILE ≡ 67108864 }
{}

/// The limits of grids, books and lists of words.
pub fn auctions_have_these_limits()
    ensures base { LARGEST_BASE ≡ 10 ^ 12 }
    ensures tick { LARGEST_TICK ≡ 10 ^ 9 }
    ensures prices { MOST_PRICES ≡ 4096 }
    ensures comparisons { MOST_COMPARISONS ≡ 13 }
    ensures bidders { MOST_BIDDERS ≡ 2000 }
    ensures product { MOST_PRODUCT ≡ 500000 }
    ensures quantity { LARGEST_QUANTITY ≡ 2 ^ 48 - 1 }
    ensures words { MOST_WORDS ≡ 16384 }
    ensures spare { SPARE_WORDS ≡ 8 }
    ensures spare_masks { SPARE_MASKS ≡ 2 }
    ensures name { LONGEST_NAME ≡ 200 }
    ensures one_bidder_too_many { ONE_TOO_MANY ≡ 2002 }
    ensures block { MOST_IN_BLOCK ≡ 64 }
{}

/// The limits of schedules and transcripts.
pub fn runs_have_these_limits()
    ensures deliveries { MOST_DELIVERIES ≡ 10 ^ 6 }
    ensures one_delivery_too_many { ONE_DELIVERY_TOO_MANY ≡ 10 ^ 6 + 2 }
    ensures latest_round { LATEST_ROUND ≡ 10 ^ 6 - 1 }
    ensures rounds { MOST_ROUNDS ≡ 4096 }
{}

/// The limits of sessions.
pub fn sessions_have_these_limits()
    ensures lots { MOST_LOTS ≡ 16 }
    ensures one_lot_too_many { ONE_LOT_TOO_MANY ≡ 18 }
{}

/// The rule of a trial.
pub fn trials_have_these_numbers()
    ensures base { BASE ≡ 1000 }
    ensures tick { TICK ≡ 10 }
    ensures first_seed { FIRST_SEED ≡ 256 }
{}

/// The sizes of messages and of the blocks of each kind of gates.
pub fn blocks_have_these_sizes()
    ensures message { MOST_NUMBERS ≡ 64 }
    ensures lets { MOST_LETS ≡ 128 }
    ensures mask_chain { mask_rounds_of Chain 3 ≡ 64 }
    ensures mask_tree { mask_rounds_of Tree 3 ≡ 10 }
    ensures mask_wires { mask_wires_of 3 ≡ 487 }
    ensures five_wires { mask_wires_of 5 ≡ 853 }
    ensures five_rounds { mask_rounds_of Chain 5 ≡ 66 }
    ensures mask_bits { WIRES_BEFORE_BITS ≡ 366 }
    ensures compare_chain { compare_rounds_of Chain ≡ 63 }
    ensures compare_tree { compare_rounds_of Tree ≡ 9 }
    ensures compare_wires { compare_wires_of Chain ≡ 245 }
    ensures compare_tree_wires { compare_wires_of Tree ≡ 366 }
    ensures coefficients { MASK_COEFFICIENTS ≡ 512 }
{}

/// The bounds of the script of a sale: of each server, for each bidder, mask words and numbers; and wires, for each
/// bidder, and for each mask with the comparison under it.
pub fn sales_have_these_bounds()
    ensures masks { BIDDER_MASKS ≡ 2 }
    ensures coefficients { BIDDER_COEFFICIENTS ≡ 768 }
    ensures wires { BIDDER_WIRES ≡ 17 }
    ensures selection { SELECTION_WIRES ≡ 900 }
{}

/// The reasons of text files.
pub fn text_reasons_have_these_numbers()
    ensures too_long { TOO_LONG ≡ 20 }
    ensures bad_header { BAD_HEADER ≡ 1 }
    ensures bad_row { BAD_ROW ≡ 2 }
    ensures bad_key { BAD_KEY ≡ 2 }
    ensures bad_value { BAD_VALUE ≡ 3 }
    ensures wrong_version { WRONG_VERSION ≡ 4 }
    ensures not_one_price { NOT_ONE_PRICE ≡ 5 }
    ensures bad_source { BAD_SOURCE ≡ 3 }
    ensures same_name { SAME_NAME ≡ 4 }
    ensures too_many { TOO_MANY ≡ 5 }
    ensures over_product { OVER_PRODUCT ≡ 6 }
    ensures not_seed { NOT_SEED ≡ 7 }
    ensures off_grid { OFF_GRID ≡ 3 }
    ensures not_ascending { NOT_ASCENDING ≡ 4 }
    ensures buy_rises { BUY_RISES ≡ 5 }
    ensures sell_falls { SELL_FALLS ≡ 6 }
    ensures quantity_too_large { QUANTITY_TOO_LARGE ≡ 7 }
    ensures no_base { NO_BASE ≡ 8 }
    ensures bad_delivery { BAD_DELIVERY ≡ 1 }
    ensures too_many_deliveries { TOO_MANY_DELIVERIES ≡ 2 }
{}

/// The reasons of tapes, bundles, transcripts and envelopes.
pub fn binary_reasons_have_these_numbers()
    ensures bad_line { BAD_LINE ≡ 1 }
    ensures word_too_large { WORD_TOO_LARGE ≡ 2 }
    ensures bad_magic { BAD_MAGIC ≡ 1 }
    ensures truncated { TRUNCATED ≡ 2 }
    ensures bad_number { BAD_NUMBER ≡ 3 }
    ensures trailing { TRAILING ≡ 4 }
    ensures wrong_count { WRONG_COUNT ≡ 5 }
    ensures wrong_grid { WRONG_GRID ≡ 2 }
    ensures truncated_envelope { TRUNCATED_ENVELOPE ≡ 3 }
    ensures bad_point { BAD_POINT ≡ 4 }
    ensures after_points { AFTER_POINTS ≡ 5 }
    ensures wrong_server { WRONG_SERVER ≡ 6 }
{}
