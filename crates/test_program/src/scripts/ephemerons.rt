//! Ephemerons in scripts of one domain, with the replies that they have by hand.
/// The commands of domain 0, and what they print.
pub(crate) const REPLIES: [(&str, &str); 14] = [
    // The data goes with its key, and with the data what it leads to.
    (
        "alloc 1 0 1\nalloc 2 0 1\nstore 2 0 1\nephe 3 1\nset_key 3 0 1\nset_data 3 2\ndrop 1\ndrop 2\nfull_major\ncheck_key 3 0\ncheck_data 3\n",
        "blk 0:1\nblk 0:2\nok\nblk 0:3\nok\nok\nok\nok\nlive 2 22\nno\nno\n",
    ),
    // Three in a row, the last of which is made first.
    (
        "alloc 1 0 1\nalloc 2 0 1\nalloc 3 0 1\nalloc 4 0 1\nephe 5 1\nephe 6 1\nephe 7 1\nset_key 5 0 3\nset_data 5 4\nset_key 6 0 2\nset_data 6 3\nset_key 7 0 1\nset_data 7 2\ndrop 2\ndrop 3\ndrop 4\nfull_major\ncheck_data 5\ndrop 1\nfull_major\ncheck_key 5 0\ncheck_data 5\n",
        "blk 0:1\nblk 0:2\nblk 0:3\nblk 0:4\nblk 0:5\nblk 0:6\nblk 0:7\nok\nok\nok\nok\nok\nok\nok\nok\nok\nlive 8 42\nyes\nok\nlive 4 30\nno\nno\n",
    ),
    // One dead key empties the data, and leaves the other key.
    (
        "alloc 1 0 1\nalloc 2 0 1\nint 3 7\nephe 4 2\nset_key 4 0 1\nset_key 4 1 2\nset_data 4 3\ndrop 1\nfull_major\ncheck_key 4 0\ncheck_key 4 1\ncheck_data 4\n",
        "blk 0:1\nblk 0:2\nok\nblk 0:3\nok\nok\nok\nok\nlive 3 26\nno\nyes\nno\n",
    ),
    // What a key was is alive again once a register holds it.
    (
        "alloc 1 0 1\nalloc 2 0 1\nint 3 7\nstore 2 0 3\nstore 1 0 2\nephe 4 1\nset_key 4 0 1\nmajor\nget_key 5 4 0\ndrop 1\ndrop 2\nfull_major\nload 6 5 0\nload 7 6 0\n",
        "blk 0:1\nblk 0:2\nok\nok\nok\nblk 0:3\nok\nok\nblk 0:1\nok\nok\nlive 4 28\nblk 0:2\nint 7\n",
    ),
    // Refusals, and data without keys.
    (
        "int 1 5\nephe 2 1\nset_key 2 0 1\nget_key 3 2 0\nget_key 3 2 1\nset_data 2 1\nfull_major\nget_data 3 2\nunset_data 2\nget_data 3 2\nload 4 2 0\n",
        "ok\nblk 0:1\ntype\nnone\nbounds\nok\nlive 2 22\nint 5\nok\nnone\ntype\n",
    ),
    (
        "int 1 5\nset_key 1 0 0\nset_key 0 0 0\nunset_key 0 0\nget_key 2 0 0\ncheck_key 0 0\nset_data 0 0\nunset_data 0\nget_data 2 0\ncheck_data 0\ncheck_data 9\nephe 3 2\nset_key 3 2 0\nset_key 3 0 9\nset_data 3 9\nunset_key 3 2\ncheck_key 3 2\n",
        "ok\ntype\ntype\ntype\ntype\ntype\ntype\ntype\ntype\ntype\ntype\nblk 0:1\nbounds\ntype\ntype\nbounds\nbounds\n",
    ),
    // A key that is its own data lives no longer than something else holds it.
    (
        "alloc 1 0 1\nephe 2 1\nset_key 2 0 1\nset_data 2 1\nfull_major\ncheck_key 2 0\ndrop 1\nfull_major\ncheck_key 2 0\ncheck_data 2\n",
        "blk 0:1\nblk 0:2\nok\nok\nlive 3 25\nyes\nok\nlive 2 22\nno\nno\n",
    ),
    // One key of three ephemerons, whose data is a number, a block and the key itself.
    (
        "alloc 1 0 1\nalloc 2 0 1\nint 3 4\nephe 4 1\nephe 5 1\nephe 6 1\nset_key 4 0 1\nset_key 5 0 1\nset_key 6 0 1\nset_data 4 3\nset_data 5 2\nset_data 6 1\ndrop 2\nfull_major\nget_data 7 4\nget_data 7 5\nget_data 7 6\ndrop 1\ndrop 7\nfull_major\ncheck_data 4\ncheck_data 5\ncheck_data 6\n",
        "blk 0:1\nblk 0:2\nok\nblk 0:3\nblk 0:4\nblk 0:5\nok\nok\nok\nok\nok\nok\nok\nlive 6 36\nint 4\nblk 0:2\nblk 0:1\nok\nok\nlive 4 30\nno\nno\nno\n",
    ),
    // An ephemeron as the key of another and as the data of a third.
    (
        "ephe 1 1\nephe 2 1\nephe 3 1\nset_key 2 0 1\nset_key 3 0 0\nset_data 3 1\nint 4 6\nset_data 2 4\ndrop 1\nfull_major\ncheck_key 2 0\nget_data 4 2\nunset_data 3\nfull_major\ncheck_key 2 0\ncheck_data 2\n",
        "blk 0:1\nblk 0:2\nblk 0:3\nok\nok\nok\nok\nok\nok\nlive 4 30\nyes\nint 6\nok\nlive 3 26\nno\nno\n",
    ),
    // A minor collection keeps a young key and young data.
    (
        "alloc 1 0 1\nalloc 2 0 1\nephe 3 2\nset_key 3 1 1\nset_data 3 2\ndrop 1\ndrop 2\nminor\nget_key 4 3 1\nget_data 5 3\ncheck_key 3 0\n",
        "blk 0:1\nblk 0:2\nblk 0:3\nok\nok\nok\nok\nok\nblk 0:1\nblk 0:2\nno\n",
    ),
    // An ephemeron without data and one without keys.
    (
        "alloc 1 0 1\nephe 2 8\nset_key 2 7 1\nephe 3 1\nset_data 3 1\ndrop 1\nfull_major\ncheck_key 2 7\nunset_key 2 7\nget_key 4 2 7\ncheck_key 2 7\n",
        "blk 0:1\nblk 0:2\nok\nblk 0:3\nok\nok\nlive 4 36\nyes\nok\nnone\nno\n",
    ),
    // An ephemeron that dies with its key and its data.
    (
        "alloc 1 0 1\nephe 2 1\nset_key 2 0 1\nset_data 2 1\ndrop 2\ndrop 1\nfull_major\nephe 2 1\ncheck_key 2 0\nfull_major\n",
        "blk 0:1\nblk 0:2\nok\nok\nok\nok\nlive 1 18\nblk 0:3\nno\nlive 2 22\n",
    ),
    // Its data isn't followed where a key is dead, also where it leads back to the key.
    (
        "alloc 1 0 1\nalloc 2 0 1\nstore 2 0 1\nephe 3 1\nset_key 3 0 1\nset_data 3 2\ndrop 1\nfull_major\ncheck_key 3 0\nload 4 2 0\n",
        "blk 0:1\nblk 0:2\nok\nblk 0:3\nok\nok\nok\nlive 4 28\nyes\nblk 0:1\n",
    ),
    // Keys and data that are set again.
    (
        "alloc 1 0 1\nalloc 2 0 1\nephe 3 1\nset_key 3 0 1\nset_key 3 0 2\nset_data 3 1\nset_data 3 2\ndrop 1\nfull_major\nget_key 4 3 0\nget_data 5 3\n",
        "blk 0:1\nblk 0:2\nblk 0:3\nok\nok\nok\nok\nok\nlive 3 25\nblk 0:2\nblk 0:2\n",
    ),
];
