//! Tries of minutes.
ghost use Rattle.std.specs.Prelude.{◌≡◌, IfOk, OnOk, false};
ghost use Rattle.minute_trie.specs.Trie.{is_spent};

use field_values::Txt;
use hybrid_clock::Stamp;
use minute_trie::{Trie, TrieFault, hash32};
use std::alloc::Global;
use std::test::Fail;

/// Bytes, and the hashes of the first of them by how many they are, from none on, as another implementation gave them: in Python,
/// after the public description of MurmurHash3 (x86, 32 bits, seed 0).
const BYTES: [u8; 64] = [
    0x1f, 0x6e, 0xf0, 0x31, 0x1b, 0x1b, 0x95, 0x07, 0xe9, 0x7c, 0xff, 0x78, 0x28, 0x35, 0x2d, 0x00,
    0x90, 0x27, 0xdd, 0xce, 0xb3, 0xd0, 0x71, 0xe0, 0xe3, 0x36, 0x37, 0x58, 0xf2, 0x71, 0xc0, 0x87,
    0xe5, 0x85, 0x07, 0x44, 0x07, 0xbb, 0x93, 0x86, 0x53, 0xbd, 0x1c, 0x47, 0xea, 0xc0, 0xf8, 0x1b,
    0x5d, 0xef, 0xb4, 0xf2, 0xeb, 0x8d, 0x96, 0x0c, 0x68, 0xa8, 0x5b, 0xb8, 0x24, 0x64, 0xbe, 0x8f,
];

const HASHES: [u32; 65] = [
    0x00000000, 0xaba984a3, 0x9f93543a, 0xc1c00c5a, 0x5fec25c8, 0x6351bec9, 0x4839b351, 0x61372da2,
    0x01a80baa, 0xe2443d99, 0x31ca06ac, 0x094ad58a, 0x33d62d88, 0xbc395c54, 0xff45b9f4, 0x1ab42cba,
    0xc2bfbc02, 0x6837046f, 0x551caa56, 0x72893bd6, 0x350b7675, 0x40c8d863, 0xcd228eb6, 0x012b8465,
    0xbb2b6ec5, 0x1ba1923a, 0xdbc3c1dc, 0x1e869e53, 0xaa740cbd, 0x5a9d1e02, 0x1205995a, 0xd79242c4,
    0xa2ce7d0c, 0x9a3c397b, 0x804ac5e9, 0xdfa34bd7, 0x3c4fa122, 0xd2be937b, 0xcbc36ff0, 0x1c3a9cd8,
    0x21a34f1f, 0xcbd6b2b3, 0x12df7835, 0xdedf2901, 0xef59bdf3, 0xabcc9fe1, 0x72c53610, 0x771eb259,
    0x06560189, 0x89294b22, 0xff6684a9, 0x87d155e3, 0x801a2ebf, 0x4bb375cf, 0xd50ae66a, 0x08feac52,
    0x321780b8, 0xaed15a09, 0x9d0e1a30, 0x21927d0d, 0xcdced181, 0x42982a64, 0x5c4838df, 0x73c81d42,
    0x628807e2,
];

/// The trie of (43046720, 5).
const ONE: &str =
    "{\"2\":{\"2\":{\"2\":{\"2\":{\"2\":{\"2\":{\"2\":{\"2\":{\"2\":{\"2\":{\"2\":{\"2\":{\"2\
    \":{\"2\":{\"2\":{\"2\":{\"hash\":5},\"hash\":5},\"hash\":5},\"hash\":5},\"hash\":5},\"h\
    ash\":5},\"hash\":5},\"hash\":5},\"hash\":5},\"hash\":5},\"hash\":5},\"hash\":5},\"hash\
    \":5},\"hash\":5},\"hash\":5},\"hash\":5},\"hash\":5}";
/// And with (43046719, 3).
const TWO: &str =
    "{\"2\":{\"2\":{\"2\":{\"2\":{\"2\":{\"2\":{\"2\":{\"2\":{\"2\":{\"2\":{\"2\":{\"2\":{\"2\
    \":{\"2\":{\"2\":{\"1\":{\"hash\":3},\"2\":{\"hash\":5},\"hash\":6},\"hash\":6},\"hash\"\
    :6},\"hash\":6},\"hash\":6},\"hash\":6},\"hash\":6},\"hash\":6},\"hash\":6},\"hash\":6},\
    \"hash\":6},\"hash\":6},\"hash\":6},\"hash\":6},\"hash\":6},\"hash\":6}";
/// The trie of (43046718, 1), (43046719, 2), (43046720, 4).
const THREE: &str =
    "{\"2\":{\"2\":{\"2\":{\"2\":{\"2\":{\"2\":{\"2\":{\"2\":{\"2\":{\"2\":{\"2\":{\"2\":{\"2\
    \":{\"2\":{\"2\":{\"1\":{\"hash\":2},\"2\":{\"hash\":4},\"hash\":7},\"hash\":7},\"hash\"\
    :7},\"hash\":7},\"hash\":7},\"hash\":7},\"hash\":7},\"hash\":7},\"hash\":7},\"hash\":7},\
    \"hash\":7},\"hash\":7},\"hash\":7},\"hash\":7},\"hash\":7},\"hash\":7}";
/// And with (43046718, 8).
const FOUR: &str =
    "{\"2\":{\"2\":{\"2\":{\"2\":{\"2\":{\"2\":{\"2\":{\"2\":{\"2\":{\"2\":{\"2\":{\"2\":{\"2\
    \":{\"2\":{\"2\":{\"1\":{\"hash\":2},\"2\":{\"hash\":4},\"hash\":15},\"hash\":15},\"hash\
    \":15},\"hash\":15},\"hash\":15},\"hash\":15},\"hash\":15},\"hash\":15},\"hash\":15},\"h\
    ash\":15},\"hash\":15},\"hash\":15},\"hash\":15},\"hash\":15},\"hash\":15},\"hash\":15}";
/// The trie of the first timestamp below.
const STAMPED: &str =
    "{\"1\":{\"2\":{\"2\":{\"2\":{\"1\":{\"1\":{\"0\":{\"0\":{\"2\":{\"0\":{\"2\":{\"0\":{\"1\
    \":{\"2\":{\"2\":{\"0\":{\"hash\":189847234},\"hash\":189847234},\"hash\":189847234},\"h\
    ash\":189847234},\"hash\":189847234},\"hash\":189847234},\"hash\":189847234},\"hash\":18\
    9847234},\"hash\":189847234},\"hash\":189847234},\"hash\":189847234},\"hash\":189847234}\
    ,\"hash\":189847234},\"hash\":189847234},\"hash\":189847234},\"hash\":189847234},\"hash\
    \":189847234}";
/// Seventeen levels round an empty object.
const DEEP: &str =
    "{\"0\":{\"0\":{\"0\":{\"0\":{\"0\":{\"0\":{\"0\":{\"0\":{\"0\":{\"0\":{\"0\":{\"0\":{\"0\
    \":{\"0\":{\"0\":{\"0\":{\"0\":{}}}}}}}}}}}}}}}}}}";
/// No node at the left, and too deep at the right.
const DEEP_RIGHT: &str =
    "{\"0\":[],\"1\":{\"0\":{\"0\":{\"0\":{\"0\":{\"0\":{\"0\":{\"0\":{\"0\":{\"0\":{\"0\":{\
    \"0\":{\"0\":{\"0\":{\"0\":{\"0\":{\"0\":{}}}}}}}}}}}}}}}}}}";

/// The hash of so many of the first bytes, where there are so many.
fn hash_of_first(bytes: &[u8], len: usize) -> Option<u32> {
    Some(hash32(bytes.get(..len)?))
}

#[test]
fn hashes_bytes(rt: HostRuntime) {
    for (len, hash) in HASHES.iter().enumerate() {
        assert_eq!(rt; hash_of_first(&BYTES, len), Some(*hash), "{len} bytes");
    }
}

#[test]
fn hashes_texts(rt: HostRuntime) {
    for (text, hash) in [
        ("", 0),
        ("test", 0xba6b_d213),
        ("Hello, world!", 0xc036_3e43),
        (
            "2024-01-05T10:00:00.000Z-0000-00000000000000aa",
            189_847_234,
        ),
        (
            "2024-01-05T10:00:01.000Z-0000-00000000000000bb",
            195_473_800,
        ),
        (
            "1970-01-01T00:00:00.000Z-0000-0000000000000001",
            0xab97_6eb7,
        ),
        (
            "2051-11-05T13:20:59.999Z-FFFF-zzzzzzzzzzzzzzzz",
            0xc62f_f18b,
        ),
    ] {
        assert_eq!(rt; hash32(text.as_bytes()), hash, "of {text}");
    }
}

/// The last minute that has a key.
const LAST: u32 = 43_046_720;

/// The trie of pairs of a hash and its minute, which is told by how many minutes it comes before
/// the last one.
fn trie_of(alloc: Global, pairs: &[(u8, i32)]) -> Result<Trie, Fail>
    ensures { IfOk result (λ trie. is_spent trie ≡ false) }
{
    let mut trie = Trie::new(alloc);
    for (before, hash) in pairs {
        trie.insert_hash(LAST - u32::from(*before), *hash)?;
    }
    Ok(trie)
}

/// The root of the trie of such pairs, and its text.
fn root_and_text(alloc: Global, pairs: &[(u8, i32)]) -> Result<(i32, Txt), Fail> {
    let trie = trie_of(alloc, pairs)?;
    Ok((trie.root(), trie.to_json()?))
}

/// Where the tries of such pairs differ.
fn difference(
    alloc: Global,
    pairs: &[(u8, i32)],
    others: &[(u8, i32)],
) -> Result<Option<u64>, Fail> {
    let one = trie_of(alloc, pairs)?;
    let two = trie_of(alloc, others)?;
    Ok(one.diff(&two))
}

#[test]
fn holds_tries(rt: HostRuntime) -> Result<(), Fail> {
    let alloc = rt.alloc();
    for (pairs, root, text) in [
        (&[(0, 5)][..], 5, ONE),
        (&[(0, 5), (1, 3)][..], 6, TWO),
        (&[(2, 1), (1, 2), (0, 4)][..], 7, THREE),
        (&[(2, 1), (1, 2), (0, 4), (2, 8)][..], 15, FOUR),
    ] {
        let (found, written) = root_and_text(alloc, pairs)?;
        assert_eq!(rt; (found, written.as_str()), (root, text));
    }
    let apart = difference(alloc, &[(0, 5)], &[(0, 5), (1, 3)])?;
    assert_eq!(rt; apart, Some(2_582_803_080_000));
    Ok(())
}

/// Adds the timestamp of a text.
fn stamp(trie: &mut Trie, text: &str) -> Result<(), Fail>
    requires { is_spent trie.old ≡ false }
    ensures { OnOk result (is_spent trie.new ≡ false) }
{
    let stamp = Stamp::parse(text.as_bytes())?;
    trie.insert(&stamp)?;
    Ok(())
}

/// The text of a trie once this timestamp is added.
fn text_with(trie: &mut Trie, text: &str) -> Result<Txt, Fail>
    requires { is_spent trie.old ≡ false }
    ensures { OnOk result (is_spent trie.new ≡ false) }
{
    stamp(trie, text)?;
    Ok(trie.to_json()?)
}

/// The text of a trie of one timestamp, its root with a second one, and whether it is spent then.
fn stamped(alloc: Global, first: &str, second: &str) -> Result<(Txt, i32, bool), Fail> {
    let mut trie = Trie::new(alloc);
    let text = text_with(&mut trie, first)?;
    stamp(&mut trie, second)?;
    Ok((text, trie.root(), trie.is_spent()))
}

#[test]
fn holds_timestamps(rt: HostRuntime) -> Result<(), Fail> {
    let (text, root, spent) = stamped(
        rt.alloc(),
        "2024-01-05T10:00:00.000Z-0000-00000000000000aa",
        "1970-01-01T00:00:00.000Z-0000-0000000000000001",
    )?;
    assert_eq!(rt; text.as_str(), STAMPED);
    assert_eq!(rt; (root, spent), (-1_597_523_851, false));
    Ok(())
}

/// The trie of a text.
fn read(alloc: Global, text: &str) -> Result<Trie, Fail>
    ensures { IfOk result (λ trie. is_spent trie ≡ false) }
{
    let text = Txt::from_text(alloc, text)?;
    Ok(Trie::from_json(alloc, &text)?)
}

/// The text that is written of the trie that a text is read as.
fn rewritten(alloc: Global, text: &str) -> Result<Txt, Fail> {
    let trie = read(alloc, text)?;
    Ok(trie.to_json()?)
}

#[test]
fn reads_texts(rt: HostRuntime) -> Result<(), Fail> {
    for (text, again) in [
        ("{}", "{\"hash\":0}"),
        (
            " {\"hash\" : -2147483648, \"1\": {}}",
            "{\"1\":{\"hash\":0},\"hash\":-2147483648}",
        ),
        (
            "{\"2\":{},\"1\":{},\"0\":{},\"hash\":1}",
            "{\"0\":{\"hash\":0},\"1\":{\"hash\":0},\"2\":{\"hash\":0},\"hash\":1}",
        ),
        (
            "{\"hash\":null,\"1\":[],\"hash\":3,\"\\u0031\":{}}",
            "{\"1\":{\"hash\":0},\"hash\":3}",
        ),
        (TWO, TWO),
    ] {
        let written = rewritten(rt.alloc(), text)?;
        assert_eq!(rt; written.as_str(), again, "of {text}");
    }
    Ok(())
}

/// Why a text is no trie.
fn fault_of(alloc: Global, text: &str) -> Result<Option<TrieFault>, Fail> {
    let text = Txt::from_text(alloc, text)?;
    Ok(Trie::from_json(alloc, &text).err())
}

#[test]
fn refuses_texts(rt: HostRuntime) -> Result<(), Fail> {
    for (text, fault) in [
        ("{", TrieFault::NotJson),
        ("[]", TrieFault::BadNode { depth: 0 }),
        ("{\"3\":{}}", TrieFault::BadNode { depth: 0 }),
        ("{\"hash\":null}", TrieFault::BadNode { depth: 0 }),
        ("{\"hash\":2147483648}", TrieFault::BadNode { depth: 0 }),
        ("{\"hash\":1.0}", TrieFault::BadNode { depth: 0 }),
        ("{\"hash\":-0}", TrieFault::BadNode { depth: 0 }),
        ("{\"hash\":1e999}", TrieFault::NotJson),
        (
            "{\"hash\":1,\"hash\":null}",
            TrieFault::BadNode { depth: 0 },
        ),
        (
            "{\"1\":{\"hash\":0,\"0\":{\"x\":0}},\"0\":{\"2\":1}}",
            TrieFault::BadNode { depth: 2 },
        ),
        (DEEP, TrieFault::TooDeep),
        (DEEP_RIGHT, TrieFault::BadNode { depth: 1 }),
    ] {
        assert_eq!(rt; fault_of(rt.alloc(), text)?, Some(fault), "of {text}");
    }
    Ok(())
}

/// Three children stay until an insertion passes their parent.
#[test]
fn prunes_what_was_read(rt: HostRuntime) -> Result<(), Fail> {
    let mut trie = read(rt.alloc(), "{\"0\":{},\"1\":{},\"2\":{},\"hash\":1}")?;
    trie.insert_hash(0, 6)?;
    assert_eq!(rt;
        trie.to_json()?.as_str(),
        "{\"1\":{\"hash\":0},\"2\":{\"hash\":0},\"hash\":7}"
    );
    assert_eq!(rt; Trie::new(rt.alloc()).diff(&trie), Some(0));
    Ok(())
}
