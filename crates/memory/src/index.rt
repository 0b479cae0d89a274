// The chained index over the nodes of one kind, c numbers a node: `find` and `enter`.
ghost use Rattle.std.specs.Prelude.{◌≡◌, List, [], ◌∷◌, Bool, true, false, ℕ, ◌+◌, ◌*◌, ◌%◌, ◌<◌, ◌≤◌, length, get_or};
ghost use Rattle.memory.specs.Rows.{row, most_places};
ghost use Rattle.memory.specs.Working.{index_size, memo_size, bucket, part_size};
ghost use Rattle.memory.specs.Finding.{Finds, Search, SearchAt, Entered, Emptied};
ghost use Rattle.memory.specs.Noting.{Noted};
ghost use Rattle.model.specs.Store.{Kind, arity};
ghost use Rattle.std.proofs.Math.Seq.{paste};

// THE PARTS of the working memory after the memo, specs/Working: the bucket heads, the links, the words of relations and those of sets, so many numbers each.
pub const PART: usize = 4096;

// The index: heads and links.
pub const INDEX: usize = 2 * PART;

// How far behind the memo the words of sets begin.
pub const SET_WORDS: usize = 3 * PART;

// All parts but the memo.
const PARTS: usize = 4 * PART;

// The length from which on all parts are whole.
const WHOLE: usize = 5 * PART;

// The numbers of the memo in a working memory of this length; the index follows them.
pub fn memo_size(len: usize) -> usize
    ensures { (result ≡ memo_size len) × (result ≤ len) }
{
    if len < WHOLE {
        PART.min(len)
    } else {
        len - PARTS
    }
}

// The bucket of four numbers.
pub(crate) fn bucket(a: u32, b: u32, c: u32, d: u32) -> usize
    ensures { (result ≡ bucket (a ∷ b ∷ c ∷ d ∷ [])) × (result < part_size) }
{
    let h = a as u64 * 668265263
        + b as u64 * 374761393
        + c as u64 * 1640531527
        + d as u64 * 1000000007;
    (h % 4294967296 / 1048576) as usize
}

// Number j of a node, 0 where it has fewer: a bucket is of four numbers.
fn number(x: &[u32], j: usize) -> u32
    ensures { result ≡ get_or x.now j 0 }
{
    x.get(j).copied().unwrap_or(0)
}

// The bucket of a node.
pub fn hash(x: &[u32]) -> usize
    ensures { (result ≡ bucket x.now) × (result < part_size) }
{
    bucket(number(x, 0), number(x, 1), number(x, 2), number(x, 3))
}

// Whether two slices hold the same numbers. By hand: `==` of slices is a call for each pair (docs/DECISIONS.md, Speed).
fn equal(a: &[u32], b: &[u32]) -> bool
    ensures yes { result ≡ true → a.now ≡ b.now }
    ensures no { result ≡ false → a.now ≡ b.now → ⊥ }
{
    if a.len() != b.len() {
        return false;
    }
    for j in 0..a.len() {
        if a[j] != b[j] {
            return false;
        }
    }
    true
}

// A node's numbers as they are handed on: a slice, or a relation's four one by one (relation_node).
pub(crate) trait Numbers: Copy {
    ghost list: { Self → List ℕ };

    // How many they are.
    fn count(self) -> usize
        ensures { result ≡ length (list self) };

    // Whether node i has them.
    fn is_at(self, nodes: &[u32], i: usize) -> bool
        requires { length (list self) * i + length (list self) ≤ length nodes.now }
        ensures yes { result ≡ true → row (length (list self)) nodes.now i ≡ list self }
        ensures no { result ≡ false → row (length (list self)) nodes.now i ≡ list self → ⊥ };

    // Their bucket.
    fn hash(self) -> usize
        ensures { (result ≡ bucket (list self)) × (result < part_size) };

    // Notes the word of a node that has them at place n.
    fn note(self, work: &mut [u32], n: usize)
        requires { n < most_places }
        ensures { (K : Kind) → length (list self) ≡ arity K → Noted K (list self) n work.old work.new };

    // Node n becomes these.
    fn put(self, nodes: &mut [u32], n: usize)
        requires { length (list self) * n + length (list self) ≤ length nodes.old }
        ensures { nodes.new ≡ paste nodes.old (length (list self) * n) (list self) (length (list self)) };
}

impl<'a> Numbers for &'a [u32] {
    ghost list = { λ x. x.now };

    fn count(self) -> usize {
        self.len()
    }

    fn is_at(self, nodes: &[u32], i: usize) -> bool {
        let b = self.len() * i;
        equal(&nodes[b..b + self.len()], self)
    }

    fn hash(self) -> usize {
        hash(self)
    }

    fn note(self, work: &mut [u32], n: usize) {
        crate::property_words::note(work, self, n);
    }

    fn put(self, nodes: &mut [u32], n: usize) {
        let b = self.len() * n;
        nodes[b..b + self.len()].copy_from_slice(self);
    }
}

// The search without an index.
fn scan<X: Numbers>(nodes: &[u32], n: usize, x: X) -> Option<usize>
    requires { length (X.list x) * n ≤ length nodes.now }
    ensures { Finds (row (length (X.list x)) nodes.now) n (X.list x) true result }
{
    (0..n).find(|&i| x.is_at(nodes, i))
}

// The search along the chain of bucket b, the node's; it ends whatever the index holds. Its loop follows links, numbers of the lent working memory of which 0
// is none, and counts nothing.
fn chase<X: Numbers>(
    nodes: &[u32],
    work: &[u32],
    at: usize,
    n: usize,
    b: usize,
    x: X,
) -> Option<usize>
    requires { (length (X.list x) * n ≤ length nodes.now) × (at + index_size ≤ length work.now) × (n ≤ most_places)
        × (b ≡ bucket (X.list x)) × (b < part_size) }
    ensures { SearchAt (X.list x) nodes.now work.now at n result }
{
    let mut v = work[at + b] as usize;
    while v != 0 {
        if v > n {
            return None;
        }
        let i = v - 1;
        if x.is_at(nodes, i) {
            return Some(i);
        }
        let next = work[at + PART + i] as usize;
        if next >= v {
            return None;
        }
        v = next;
    }
    None
}

// A place of the first n where x is, of bucket b; with an index of these nodes or none, none only where x is not among them.
pub(crate) fn search<X: Numbers>(
    nodes: &[u32],
    work: &[u32],
    n: usize,
    b: usize,
    x: X,
) -> Option<usize>
    requires { (length (X.list x) * n ≤ length nodes.now) × (n ≤ most_places) × (b ≡ bucket (X.list x)) × (b < part_size) }
    ensures { Search (X.list x) nodes.now work.now n result }
{
    let at = memo_size(work.len());
    if work.len() - at < INDEX {
        return scan(nodes, n, x);
    }
    chase(nodes, work, at, n, b, x)
}

// The same search for a node in a slice.
pub fn find(nodes: &[u32], work: &[u32], n: usize, x: &[u32]) -> Option<usize>
    requires { (length x.now * n ≤ length nodes.now) × (n ≤ most_places) }
    ensures { Search x.now nodes.now work.now n result }
{
    search(nodes, work, n, hash(x), x)
}

// Node n, of bucket b, joins the index that begins at this place.
pub fn link(work: &mut [u32], at: usize, n: usize, b: usize)
    requires { (at + index_size ≤ length work.old) × (n < most_places) × (b < part_size) }
    ensures { (node : ℕ → List ℕ) → at ≡ memo_size (length work.old) → b ≡ bucket (node n)
        → Entered node n work.old work.new }
{
    let old = work[at + b];
    work[at + PART + n] = old;
    work[at + b] = n as u32 + 1;
}

// The same, where there is an index.
pub(crate) fn link_in(work: &mut [u32], n: usize, b: usize)
    requires { (n < most_places) × (b < part_size) }
    ensures { (node : ℕ → List ℕ) → b ≡ bucket (node n) → Entered node n work.old work.new }
{
    let at = memo_size(work.len());
    if work.len() - at >= INDEX {
        link(work, at, n, b);
    }
}

// Node n, of c numbers, joins the index.
pub fn enter(nodes: &[u32], work: &mut [u32], c: usize, n: usize)
    requires { (c * n + c ≤ length nodes.now) × (n < most_places) }
    ensures { Entered (row c nodes.now) n work.old work.new }
{
    let s = c * n;
    let e = s + c;
    link_in(work, n, hash(&nodes[s..e]));
}

// Takes all nodes out of the index.
pub fn empty(work: &mut [u32])
    ensures { Emptied work.old work.new }
{
    let m = memo_size(work.len());
    if work.len() - m < INDEX {
        return;
    }
    work[m..m + PART].fill(0);
}
