// The remaining program in u32 words: reading a node, and putting a construct around what a transition left.
#![tactic(auto)]

ghost use Rattle.std.specs.Prelude.{◌≡◌, ◌+◌, ◌^◌, ◌≤◌, ◌<◌, length, get_or};
ghost use Rattle.words.specs.Words.{Copied, Put, CanPutLeaf, CanPutCopy, LeafRight, LeafLeft, CopyRight, CopyLeft};

// Tags of nodes: nothing is left, a record, else the kind of the construct.
// Kept: numbers, since they are words of the lent work area: `tag_at` answers whatever word stands there, and `At` goes by numbers.
pub const GONE: u32 = 0;

pub const LEAF: u32 = 1;

// a;b and a together b; the other construct is a over b.
pub const SEQUENCE: u32 = 3;

pub const TOGETHER: u32 = 8;

// The words of the node at `at`.
pub fn tag_at(work: &[u32], at: usize) -> u32
    requires { at + 3 ≤ length work.now }
    ensures { result ≡ get_or work.now at 0 }
{
    work[at]
}

pub fn record_at(work: &[u32], at: usize) -> usize
    requires { at + 3 ≤ length work.now }
    ensures { result ≡ get_or work.now (at + 1) 0 }
{
    work[at + 1] as usize
}

pub fn size_at(work: &[u32], at: usize) -> usize
    requires { at + 3 ≤ length work.now }
    ensures { result ≡ get_or work.now (at + 2) 0 }
{
    work[at + 2] as usize
}

// Copies n words to a place above them.
pub fn copy_words(work: &mut [u32], from: usize, to: usize, n: usize)
    requires { (from + n ≤ to) × (to + n ≤ length work.old) }
    ensures { Copied from to n work.old work.new }
{
    work.copy_within(from..from + n, to);
}

// Writes the three words of a node.
pub fn put_node(work: &mut [u32], at: usize, tag: u32, number: usize, size: usize)
    requires { (at + 3 ≤ length work.old) × (number < 2 ^ 32) × (size < 2 ^ 32) }
    ensures { Put at tag number size work.old work.new }
{
    work[at] = tag;
    work[at + 1] = number as u32;
    work[at + 2] = size as u32;
}

// Puts the node of a construct before the n nodes that stand there, and a leaf of record q at their right.
pub fn put_leaf_right(work: &mut [u32], to: usize, tag: u32, n: usize, q: usize)
    requires { CanPutLeaf to tag n q work.old }
    ensures { LeafRight to tag n q work.old work.new }
{
    put_node(work, to + 3 + 3 * n, LEAF, q, 1);
    put_node(work, to, tag, 0, n + 2);
}

// Puts the node of a construct and a leaf of record q before the n nodes that stand six words on: the leaf is at their left.
pub fn put_leaf_left(work: &mut [u32], to: usize, tag: u32, n: usize, q: usize)
    requires { CanPutLeaf to tag n q work.old }
    ensures { LeafLeft to tag n q work.old work.new }
{
    put_node(work, to + 3, LEAF, q, 1);
    put_node(work, to, tag, 0, n + 2);
}

// Puts the node of a construct before the n nodes that stand there, and a copy of the m nodes at `from` at their right.
pub fn put_copy_right(work: &mut [u32], from: usize, to: usize, tag: u32, n: usize, m: usize)
    requires { CanPutCopy from to tag n m work.old }
    ensures { CopyRight from to tag n m work.old work.new }
{
    copy_words(work, from, to + 3 + 3 * n, 3 * m);
    put_node(work, to, tag, 0, 1 + n + m);
}

// Puts the node of a construct and a copy of the n nodes at `from` before the m nodes that stand where the copy ends: the copy is at their
// left.
pub fn put_copy_left(work: &mut [u32], from: usize, to: usize, tag: u32, n: usize, m: usize)
    requires { CanPutCopy from to tag m n work.old }
    ensures { CopyLeft from to tag n m work.old work.new }
{
    copy_words(work, from, to + 3, 3 * n);
    put_node(work, to, tag, 0, 1 + n + m);
}
