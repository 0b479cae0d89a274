// Property words: what is known of a handle without looking at its nodes, and the walk where nothing is known. A word is a number of the lent working memory,
// where 0 says nothing (specs/Working), and is handed on as that number, of which the contracts speak.
ghost use Rattle.std.specs.Prelude.{◌≡◌, List, [], ◌∷◌, Bool, true, false, ◌&&◌, ℕ, ◌+◌, ◌/◌, ◌<◌, ◌≤◌, min, length, get_or, eqb};
ghost use Rattle.model.specs.Store.{Kind, set, rel, arity, Store, pick, index, get, signed};
ghost use Rattle.model.specs.WellFormed.{Held, WellFormed};
ghost use Rattle.model.specs.Safety.{Within};
ghost use Rattle.memory.specs.Rows.{places, plain, most_places};
ghost use Rattle.memory.specs.Working.{words_at, properties_in, Known, Words, part_size};
ghost use Rattle.memory.specs.Performing.{KnowsProperties};
ghost use Rattle.memory.specs.Noting.{Written, Noted, WordsOf, ReadsWord, KnownWord, properties, in_both, Gathers, ChildOf, ChildrenAre};
ghost use Rattle.memory.specs.Noting.{WalksTo, IdentityAt, LevelIs};

// A word with these properties; 0 for a level that it has no room for.
pub fn word_of(r: crate::Properties) -> u32
    ensures { (0 < result → properties_in result ≡ r) × (r.level < 256 → 0 < result) }
{
    if r.level >= 256 {
        return 0;
    }
    16 * r.level + 8 + u32::from(r.empty) + 2 * u32::from(r.universal) + 4 * u32::from(r.identity)
}

// The properties in a word.
pub fn properties_in(v: u32) -> crate::Properties
    ensures { result ≡ properties_in v }
{
    crate::Properties {
        empty: v % 2 == 1,
        universal: v / 2 % 2 == 1,
        identity: v / 4 % 2 == 1,
        level: v / 16,
    }
}

// Where the words of nodes of c numbers begin in a working memory of this length; its end where it has none, so that the slice from there is empty.
fn words_start(len: usize, c: usize) -> usize
    ensures { ((K : Kind) → c ≡ arity K → result ≡ min (words_at K len) len) × (result ≤ len) }
{
    let at = crate::index::memo_size(len);
    let after = if c == 2 {
        crate::index::SET_WORDS
    } else {
        crate::index::INDEX
    };
    if len - at < after { len } else { at + after }
}

// Where the words that begin at s end.
fn words_end(len: usize, s: usize) -> usize
    requires { s ≤ len }
    ensures { (s ≤ result) × (result ≤ len) × (result ≤ s + part_size) }
{
    s + crate::index::PART.min(len - s)
}

// The word of a set's other handle.
fn opposite_word(v: u32) -> u32
    ensures { (k : ℕ) (S : Store) (h : ℕ) → WellFormed k S → Known set S h v → Known set S (signed 1 h) result }
{
    if v == 0 {
        return 0;
    }
    let r = properties_in(v);
    word_of(crate::Properties {
        empty: r.universal,
        universal: r.empty,
        identity: false,
        ..r
    })
}

// The place of a handle's node, of any count c of numbers: what `child_of` and it take may not become less.
pub fn place_of(c: usize, h: u32) -> usize
    ensures { (K : Kind) → c ≡ arity K → result ≡ index K h }
{
    if h < 2 {
        return 0;
    }
    (if c == 2 { h / 2 - 1 } else { h - 2 }) as usize
}

// The word of 0 and 1, at level 0.
fn constant_word(h: u32) -> u32
    ensures { properties_in result ≡ properties (eqb h 0) (eqb h 1) (eqb h 1) 0 }
{
    word_of(crate::Properties {
        empty: h == 0,
        universal: h == 1,
        identity: h == 1,
        level: 0,
    })
}

// What is known of a handle, as a word, where words are those of its kind's nodes.
fn handle_word(words: &[u32], c: usize, h: u32) -> u32
    ensures { ReadsWord words.now c h result }
{
    if h < 2 {
        return constant_word(h);
    }
    let i = place_of(c, h);
    if i >= words.len() {
        return 0;
    }
    let v = words[i];
    if c == 2 && h % 2 == 1 {
        opposite_word(v)
    } else {
        v
    }
}

// What two handles of one level have both.
fn shared(a: u32, b: u32) -> crate::Properties
    ensures { result ≡ in_both (properties_in a) (properties_in b) }
{
    let x = properties_in(a);
    let y = properties_in(b);
    crate::Properties {
        empty: x.empty & y.empty,
        universal: x.universal & y.universal,
        identity: x.identity & y.identity,
        level: x.level,
    }
}

// The word of a set's node with these children, from theirs; 0 where one is not known or their levels differ.
fn set_word(words: &[u32], x: &[u32]) -> u32
    requires { length x.now ≡ 2 }
    ensures { Gathers set (WordsOf set words.now) x.now result }
{
    let v0 = handle_word(words, 2, x[0]);
    let v1 = handle_word(words, 2, x[1]);
    if v0 < 8 || v1 / 8 != v0 / 8 {
        return 0;
    }
    let r = shared(v0, v1);
    word_of(crate::Properties {
        identity: false,
        level: r.level + 1,
        ..r
    })
}

// The same of a relation's node. It is the identity where the children on the diagonal are and the others are empty.
fn relation_word(words: &[u32], x00: u32, x01: u32, x10: u32, x11: u32) -> u32
    ensures { Gathers rel (WordsOf rel words.now) (x00 ∷ x01 ∷ x10 ∷ x11 ∷ []) result }
{
    let v00 = handle_word(words, 4, x00);
    let v01 = handle_word(words, 4, x01);
    let v10 = handle_word(words, 4, x10);
    let v11 = handle_word(words, 4, x11);
    if v00 < 8 || v01 / 8 != v00 / 8 || v10 / 8 != v00 / 8 || v11 / 8 != v00 / 8 {
        return 0;
    }
    let on = shared(v00, v11);
    let off = shared(v01, v10);
    word_of(crate::Properties {
        empty: on.empty & off.empty,
        universal: on.universal & off.universal,
        identity: on.identity & off.empty,
        level: on.level + 1,
    })
}

// The word of a relation's node with these children, from theirs.
pub fn gather_relation(work: &[u32], x00: u32, x01: u32, x10: u32, x11: u32) -> u32
    ensures { Gathers rel (Words work.now) (x00 ∷ x01 ∷ x10 ∷ x11 ∷ []) result }
{
    let s = words_start(work.len(), 4);
    let e = words_end(work.len(), s);
    relation_word(&work[s..e], x00, x01, x10, x11)
}

// The word of a node with the children x, from theirs.
pub fn gather(work: &[u32], x: &[u32]) -> u32
    ensures { (K : Kind) → length x.now ≡ arity K → Gathers K (Words work.now) x.now result }
{
    if x.len() == 4 {
        return gather_relation(work, x[0], x[1], x[2], x[3]);
    }
    if x.len() == 2 {
        let s = words_start(work.len(), 2);
        let e = words_end(work.len(), s);
        return set_word(&work[s..e], x);
    }
    0
}

// Writes the word of the node of c numbers at place n.
pub fn write(work: &mut [u32], c: usize, n: usize, v: u32)
    requires { n < most_places }
    ensures { (K : Kind) → c ≡ arity K → Written K n v work.old work.new }
{
    let s = words_start(work.len(), c);
    if n < work.len() - s {
        work[s + n] = v;
    }
}

// Notes the word of the node x at place n.
pub fn note(work: &mut [u32], x: &[u32], n: usize)
    requires { n < most_places }
    ensures { (K : Kind) → length x.now ≡ arity K → Noted K x.now n work.old work.new }
{
    let v = gather(work, x);
    write(work, x.len(), n, v);
}

// Child d of a handle, or 0 where it has no node (`ChildOf`), so that a walk goes on in damaged memory and ends.
pub fn child_of(nodes: &[u32], c: usize, h: u32, d: usize) -> u32
    requires { d < c }
    ensures { ChildOf nodes.now c h d result }
{
    child_among(nodes, nodes.len() / c, c, h, d)
}

// The same, of as many nodes as the slice has places for: a walk divides once, and not at each step (docs/DECISIONS.md, Speed).
fn child_among(nodes: &[u32], places: usize, c: usize, h: u32, d: usize) -> u32
    requires { (d < c) × (places ≡ length nodes.now / c) }
    ensures { ChildOf nodes.now c h d result }
{
    let i = place_of(c, h);
    if i >= places {
        return 0;
    }
    let x = nodes[c * i + d];
    if c == 2 && h % 2 == 1 { other(x) } else { x }
}

// The other of a set's two handles.
pub fn other(h: u32) -> u32
    ensures { result ≡ signed 1 h }
{
    if h % 2 == 0 { h + 1 } else { h - 1 }
}

// Whether all children of h are x.
fn children_are(nodes: &[u32], c: usize, h: u32, x: u32) -> bool
    requires { 0 < c }
    ensures { ChildrenAre nodes.now c h x result }
{
    for d in 0..c {
        if child_of(nodes, c, h, d) != x {
            return false;
        }
    }
    true
}

// Whether every walk from h, of this level, ends at v: each level has one child, since equal sets and relations are one.
fn walks_to(nodes: &[u32], c: usize, level: u8, h: u32, v: u32) -> bool
    requires { 0 < c }
    ensures { WalksTo nodes.now c level h v result }
{
    let mut g = h;
    for _ in 0..level {
        let x = child_of(nodes, c, g, 0);
        if !children_are(nodes, c, g, x) {
            return false;
        }
        g = x;
    }
    g == v
}

// Whether h, of this level, is the identity, where inner says it of its first child x00; a set is not.
fn is_identity(nodes: &[u32], c: usize, level: u8, h: u32, x00: u32, inner: bool) -> bool
    requires { 0 < level }
    ensures { IdentityAt nodes.now c level h x00 inner result }
{
    if c != 4 {
        return false;
    }
    let x01 = child_of(nodes, 4, h, 1);
    if child_of(nodes, 4, h, 2) != x01
        || child_of(nodes, 4, h, 3) != x00
        || !walks_to(nodes, 4, level - 1, x01, 0)
    {
        return false;
    }
    inner
}

// The word of a handle of this level, from its nodes: a property of all children is one of the first, and they are then one handle.
fn walked(nodes: &[u32], c: usize, level: u8, h: u32) -> u32
    requires { 0 < c }
    ensures { (K : Kind) (w : List ℕ) → c ≡ arity K → KnowsProperties K nodes.now w level h (properties_in result) }
{
    if level == 0 {
        return constant_word(h);
    }
    let x = child_of(nodes, c, h, 0);
    let p = properties_in(walked(nodes, c, level - 1, x));
    let same = children_are(nodes, c, h, x);
    word_of(crate::Properties {
        empty: same & p.empty,
        universal: same & p.universal,
        identity: is_identity(nodes, c, level, h, x, p.identity),
        level: level as u32,
    })
}

// What the working memory knows of a handle, as a word.
pub fn known_word(work: &[u32], c: usize, h: u32) -> u32
    ensures { KnownWord work.now c h result }
{
    let s = words_start(work.len(), c);
    let e = words_end(work.len(), s);
    handle_word(&work[s..e], c, h)
}

// A handle's word: the one that the working memory has, else from its nodes.
fn word(nodes: &[u32], work: &[u32], c: usize, level: u8, h: u32) -> u32
    requires { 0 < c }
    ensures { (K : Kind) → c ≡ arity K → KnowsProperties K nodes.now work.now level h (properties_in result) }
{
    let v = known_word(work, c, h);
    if v != 0 {
        v
    } else {
        walked(nodes, c, level, h)
    }
}

// The properties of a relation of this level. It and the next are a line each, which names the child count of its kind to `word`, the one function of both.
pub fn relation_properties(nodes: &[u32], work: &[u32], level: u8, h: u32) -> crate::Properties
    ensures { KnowsProperties rel nodes.now work.now level h result }
{
    properties_in(word(nodes, work, 4, level, h))
}

// The same of a set.
pub fn set_properties(nodes: &[u32], work: &[u32], level: u8, h: u32) -> crate::Properties
    ensures { KnowsProperties set nodes.now work.now level h result }
{
    properties_in(word(nodes, work, 2, level, h))
}

// A handle's level, by its first children; at most k.
pub fn level(nodes: &[u32], c: usize, k: u32, h: u32) -> u32
    requires { 0 < c }
    ensures { LevelIs nodes.now c k h result × (result ≤ k) }
{
    let places = nodes.len() / c;
    let mut g = h;
    for l in 0..k {
        if g < 2 {
            return l;
        }
        g = child_among(nodes, places, c, g, 0);
    }
    k
}
