// Scripts for runs that are disturbed. What is said to them was computed by a program that knows the definitions
// alone.

/// A script over the worked devices.
#[derive(Clone, Copy)]
pub struct Case {
    pub script: &'static [u8],
    /// What a quiet run says.
    pub quiet: &'static [u8],
    pub reads: &'static [u8],
    /// What is said to the reads behind none of the references of the script, behind the first one, and so on.
    pub behind: &'static [&'static [u8]],
}

impl Case {
    /// Whether that is said to the reads behind so many references.
    pub fn finds(&self, count: u64, said: &[u8]) -> bool {
        self.behind
            .get(count as usize)
            .is_some_and(|want| *want == said)
    }
}

const ADDRESSES: &[u8] = b"r 4\nr 5\nr 6\nr 7\n";

// The last one is behind a read of address 0.
const WRITTEN: [&[u8]; 6] = [
    b"join 00\njoin 00\njoin 00\njoin 00 out 4\nbye 4\n",
    b"hit aa\njoin 00\njoin 00\njoin 00 out 4\nbye 5\n",
    b"hit aa\nhit aa\njoin 00\njoin 00 out 4\nbye 6\n",
    b"hit aa\nhit aa\nhit aa\njoin 00 out 4\nbye 7\n",
    b"join aa out 5\njoin aa out 6\njoin aa out 7\njoin aa out 4\nbye 8\n",
    b"join aa out 6\njoin aa out 7\njoin aa out 0\njoin aa out 4\nbye 9\n",
];

const READ: [&[u8]; 10] = [
    b"miss 01\nmiss 02\nbye 2\n",
    b"hit 01\nmiss 02\nbye 3\n",
    b"hit 01\nmiss 02\nbye 4\n",
    b"hit 01\nmiss 02\nbye 5\n",
    b"hit 01\nmiss 02\nbye 6\n",
    b"hit 01\nmiss 02\nbye 7\n",
    b"hit 01\nmiss 02\nbye 8\n",
    b"hit 01\nmiss 02\nbye 9\n",
    b"hit 01\nmiss 02\nbye 10\n",
    b"hit 01\nmiss 02\nbye 11\n",
];

const DROPPED: [&[u8]; 6] = [
    b"join 00\njoin 00\njoin 00\nbye 3\n",
    b"hit aa\njoin 00\njoin 00\nbye 4\n",
    b"hit aa\nhit aa\njoin 00\nbye 5\n",
    b"hit aa\nhit aa\nhit bb\nbye 6\n",
    b"miss aa drop bb00000000000000\njoin aa\nhit cc\nbye 7\n",
    b"hit aa\njoin aa\nhit cc\nbye 8\n",
];

/// A dirty address falls off behind a commit.
pub const EVICTION: Case = Case {
    script: b"w 4 aa\nw 5 aa\nw 6 aa\nw 7 aa\n",
    quiet: b"new\ndup\ndup\ndup out 4\nbye 4\n",
    reads: ADDRESSES,
    behind: &WRITTEN,
};

/// The same; then one address is written back, then all, and a read loads its block from the disk.
pub const WRITE_BACK: Case = Case {
    script: b"w 4 aa\nw 5 aa\nw 6 aa\nw 7 aa\nt\nc\nr 0\nf\n",
    quiet: b"new\ndup\ndup\ndup out 4\nticked\ncleaned\nmiss 01 out 5\nflushed 5\nbye 5\n",
    reads: ADDRESSES,
    behind: &WRITTEN,
};

/// The first commit fills the log, and the second is a snapshot into the other region.
pub const SNAPSHOT: Case = Case {
    script: b"r 0\nr 0\nr 0\nr 0\nr 0\nr 0\nr 0\nr 0\nf\nr 0\nf\n",
    quiet: b"miss 01\nhit 01\nhit 01\nhit 01\nhit 01\nhit 01\nhit 01\nhit 01\nflushed 8\nhit 01\nflushed 9\nbye 9\n",
    reads: b"r 0\nr 1\n",
    behind: &READ,
};

/// A block falls off to which two dirty addresses are linked.
pub const DROP: Case = Case {
    script: b"w 4 aa\nw 5 aa\nw 6 bb\nw 6 cc\nr 4\n",
    quiet: b"new\ndup\nnew\nnew drop aa00000000000000\nmiss aa drop bb00000000000000\nbye 5\n",
    reads: b"r 4\nr 5\nr 6\n",
    behind: &DROPPED,
};
