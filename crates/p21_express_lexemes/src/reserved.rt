ghost use Rattle.std.specs.Prelude.{◌≡◌, map};
ghost use Rattle.std.specs.Str.{bytes_eq};
ghost use Rattle.p21_spec_schema.specs.Express.{upper};
ghost use Rattle.p21_express_lexemes.specs.Fault.{left_out_words};
ghost use Rattle.p21_express_lexemes.specs.Words.{is_among, is_reserved, all_bytes_seen};

/// The upper case of a letter; any other byte as it is.
pub fn upper(byte: u8) -> u8
    ensures { result ≡ upper byte }
{
    if b'a' <= byte && byte <= b'z' {
        byte - 32
    } else {
        byte
    }
}

/// Whether the bytes are the word in any case.
#[tactic(auto, using(crate::proofs::Words::same_length, crate::proofs::Words::same_each, crate::proofs::Words::differs_at))]
pub(crate) fn is_same_word(bytes: &[u8], word: &[u8]) -> bool
    ensures { result ≡ bytes_eq (map upper bytes.now) word.now }
{
    if bytes.len() != word.len() {
        return false;
    }
    let mut count = 0;
    while count < bytes.len() {
        if upper(bytes[count]) != word[count] {
            return false;
        }
        count += 1;
    }
    true
}

/// Whether it is a reserved word, in any case.
#[tactic(auto, unfolding(crate::specs::Words::is_reserved))]
pub(crate) fn is_reserved(name: &[u8]) -> bool
    ensures { result ≡ is_reserved (map upper name.now) }
{
    is_among(&RESERVED, name)
}

/// Whether it is one of the words, in any case.
#[tactic(auto, using(crate::proofs::Words::among_next, crate::proofs::Words::among_end))]
fn is_among(words: &[&[u8]], name: &[u8]) -> bool
    ensures { result ≡ is_among (all_bytes_seen words.now) (map upper name.now) }
{
    for word in words {
        if is_same_word(name, *word) {
            return true;
        }
    }
    false
}

const RESERVED: [&[u8]; 49] = [
    b"SCHEMA",
    b"END_SCHEMA",
    b"ENTITY",
    b"END_ENTITY",
    b"ABSTRACT",
    b"SUPERTYPE",
    b"SUBTYPE",
    b"OF",
    b"DERIVE",
    b"INVERSE",
    b"UNIQUE",
    b"WHERE",
    b"OPTIONAL",
    b"SELF",
    b"TYPE",
    b"END_TYPE",
    b"ENUMERATION",
    b"SELECT",
    b"INTEGER",
    b"REAL",
    b"NUMBER",
    b"BOOLEAN",
    b"LOGICAL",
    b"STRING",
    b"BINARY",
    b"FIXED",
    b"ARRAY",
    b"LIST",
    b"SET",
    b"BAG",
    b"AGGREGATE",
    b"BASED_ON",
    b"EXTENSIBLE",
    b"GENERIC",
    b"GENERIC_ENTITY",
    b"RENAMED",
    b"USE",
    b"REFERENCE",
    b"FUNCTION",
    b"END_FUNCTION",
    b"PROCEDURE",
    b"END_PROCEDURE",
    b"RULE",
    b"END_RULE",
    b"CONSTANT",
    b"END_CONSTANT",
    b"SUBTYPE_CONSTRAINT",
    b"END_SUBTYPE_CONSTRAINT",
    b"ONEOF",
];

/// Whether it is a word of what isn't read, in any case.
pub(crate) fn is_left_out(name: &[u8]) -> bool
    ensures { result ≡ is_among left_out_words (map upper name.now) }
{
    is_among(&LEFT_OUT, name)
}

const LEFT_OUT: [&[u8]; 8] = [
    b"USE",
    b"REFERENCE",
    b"EXTENSIBLE",
    b"BASED_ON",
    b"GENERIC",
    b"GENERIC_ENTITY",
    b"AGGREGATE",
    b"RENAMED",
];
