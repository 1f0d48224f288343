//! Files of an auction, for the tests of jobs over files in memory.

/// An auction of four prices, its book of three bidders, of whom server 2 knows the last, and their bids.
pub const AUCTION_FILES: [(&str, &str); 5] = [
    (
        "g.auc",
        "beet-auction,1\nbase,100\ntick,5\nprices,4\ngates,chain\n",
    ),
    (
        "b.book",
        "beet-book,1\nanna,0,anna.bid,seed,0a0a0a0a0a0a0a0a0a0a0a0a0a0a0a0a0a0a0a0a0a0a0a0a0a0a0a0a0a0a0a0a\n\
        bo,0,bo.bid,seed,0b0b0b0b0b0b0b0b0b0b0b0b0b0b0b0b0b0b0b0b0b0b0b0b0b0b0b0b0b0b0b0b\n\
        carl,2,carl.bid,seed,0c0c0c0c0c0c0c0c0c0c0c0c0c0c0c0c0c0c0c0c0c0c0c0c0c0c0c0c0c0c0c0c\n",
    ),
    ("anna.bid", "beet-bid,1\n100,45,0\n110,30,0\n115,10,0\n"),
    (
        "bo.bid",
        "beet-bid,1\n100,0,0\n105,0,20\n110,0,40\n115,0,60\n",
    ),
    ("carl.bid", "beet-bid,1\n100,5,0\n115,0,0\n"),
];

/// The seeds of five servers.
pub const FIVE_SEEDS: (&str, &str) = (
    "v.srv",
    "beet-servers,5\n1,seed,0101010101010101010101010101010101010101010101010101010101010101\n\
    2,seed,0202020202020202020202020202020202020202020202020202020202020202\n\
    3,seed,0303030303030303030303030303030303030303030303030303030303030303\n\
    4,seed,0404040404040404040404040404040404040404040404040404040404040404\n\
    5,seed,0505050505050505050505050505050505050505050505050505050505050505\n",
);
