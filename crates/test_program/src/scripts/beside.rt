//! Collections that go on beside the domains, in scripts of one domain with the replies that they have by hand.
/// The commands of domain 0, and what they print. `major` begins a collection. A `poll` that finds that all is scanned asks for
/// its end, and the pause comes before the next command.
pub(crate) const REPLIES: [(&str, &str); 8] = [
    // What is loaded from a field stays where the field is overwritten.
    (
        "alloc 1 0 1\nalloc 2 0 1\nstore 1 0 2\ndrop 2\nmajor\nload 3 1 0\nint 4 0\nstore 1 0 4\npoll\nfull_major\nload 5 3 0\n",
        "blk 0:1\nblk 0:2\nok\nok\nok\nblk 0:2\nok\nok\nok\nlive 3 24\nint 0\n",
    ),
    // It stays too where it is moved into a new block, to which no slice comes. Blocks that are made later lie elsewhere.
    (
        "alloc 1 0 1\nalloc 2 0 1\nint 3 7\nstore 2 0 3\nstore 1 0 2\ndrop 2\nmajor\nallocmaj 4 0 1\nload 2 1 0\nstore 4 0 2\ndrop 2\nint 3 0\nstore 1 0 3\npoll\npoll\nallocmaj 5 0 1\nallocmaj 5 0 1\nload 2 4 0\nload 3 2 0\nfull_major\n",
        "blk 0:1\nblk 0:2\nok\nok\nok\nok\nok\nblk 0:3\nblk 0:2\nok\nok\nok\nok\nok\nok\nblk 0:4\nblk 0:5\nblk 0:2\nint 7\nlive 5 30\n",
    ),
    // So does a key that is got, to which nothing else leads.
    (
        "alloc 1 0 1\nint 2 7\nstore 1 0 2\nephe 3 1\nset_key 3 0 1\ndrop 1\nmajor\nget_key 1 3 0\npoll\npoll\nload 4 1 0\ncheck_key 3 0\nfull_major\n",
        "blk 0:1\nok\nok\nblk 0:2\nok\nok\nok\nblk 0:1\nok\nok\nint 7\nyes\nlive 3 25\n",
    ),
    // And data that is got, whose key goes.
    (
        "alloc 1 0 1\nalloc 2 0 1\nint 4 7\nstore 2 0 4\nephe 3 1\nset_key 3 0 1\nset_data 3 2\ndrop 1\ndrop 2\nmajor\nget_data 2 3\npoll\npoll\nload 4 2 0\ncheck_key 3 0\ncheck_data 3\nfull_major\n",
        "blk 0:1\nblk 0:2\nok\nok\nblk 0:3\nok\nok\nok\nok\nok\nblk 0:2\nok\nok\nint 7\nno\nno\nlive 3 25\n",
    ),
    // A key that nobody gets goes with the collection, without a complete one.
    (
        "alloc 1 0 1\nephe 2 1\nset_key 2 0 1\nmajor\ndrop 1\npoll\npoll\ncheck_key 2 0\nmajor\npoll\npoll\ncheck_key 2 0\n",
        "blk 0:1\nblk 0:2\nok\nok\nok\nok\nok\nyes\nok\nok\nok\nno\n",
    ),
    // A block that is made in a collection outlives it, and goes with the next.
    (
        "major\nalloc 1 0 1\nephe 2 1\nset_key 2 0 1\nset_data 2 1\ndrop 1\npoll\npoll\ncheck_key 2 0\nmajor\npoll\npoll\ncheck_key 2 0\ncheck_data 2\n",
        "ok\nblk 0:1\nblk 0:2\nok\nok\nok\nok\nok\nyes\nok\nok\nok\nno\nno\n",
    ),
    // A complete collection counts nothing that died while one went on.
    (
        "alloc 1 0 1\nephe 2 1\nset_key 2 0 1\nmajor\ndrop 1\nfull_major\ncheck_key 2 0\n",
        "blk 0:1\nblk 0:2\nok\nok\nok\nlive 2 22\nno\n",
    ),
    // Once a collection has ended polls free what it found dead. The next one comes behind that.
    (
        "allocmaj 1 0 126\nallocmaj 1 0 126\nallocmaj 1 0 126\nallocmaj 1 0 126\nallocmaj 1 0 126\nallocmaj 1 0 126\nallocmaj 1 0 126\nallocmaj 1 0 126\nallocmaj 1 0 126\nallocmaj 1 0 126\ndrop 1\nmajor\npoll\npoll\npoll\npoll\npoll\npoll\npoll\npoll\npoll\npoll\npoll\npoll\npoll\npoll\npoll\npoll\npoll\npoll\npoll\npoll\nfull_major\n",
        "blk 0:1\nblk 0:2\nblk 0:3\nblk 0:4\nblk 0:5\nblk 0:6\nblk 0:7\nblk 0:8\nblk 0:9\nblk 0:10\nok\nok\nok\nok\nok\nok\nok\nok\nok\nok\nok\nok\nok\nok\nok\nok\nok\nok\nok\nok\nok\nok\nlive 1 18\n",
    ),
];
