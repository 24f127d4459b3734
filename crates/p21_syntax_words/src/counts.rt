//! How many records of instances have which keyword.
ghost use Rattle.std.specs.Prelude.{◌≡◌, ◌++◌, ◌∷◌, [], IfOk, List, OnOk, map, ℕ};
ghost use Rattle.std.specs.List.{flat_map};
ghost use Rattle.p21_grammar_tree.specs.View.{part_view, record_view};
ghost use Rattle.p21_syntax_words.specs.HeaderText.{key_text};
ghost use Rattle.p21_syntax_words.specs.KeywordCounts.{AreCounts, count_line, counts_text, record_keywords};

use crate::keys::push_key;
use p21_grammar_tree::{Part, Record};
use p21_values::NoMemory;
use std::alloc::Global;
use std::collections::BTreeMap;
use std::marker::Model;

/// How often each keyword stands in front of a record, in the order of their bytes. A user keyword has its `!`.
#[derive(Debug, Drop)]
pub struct KeywordCounts {
    alloc: Global,
    counts: BTreeMap<Vec<u8>, u64>,
}

impl Model for KeywordCounts {
    ghost use Rattle.std.specs.Prelude.{List, ℕ};
    ghost use Rattle.p21_syntax_words.specs.KeywordCounts.{counts_of};

    ghost Value = { List (List ℕ × ℕ) };

    ghost view = { λ keywords. counts_of keywords.counts.entries };
}

impl KeywordCounts {
    /// No keyword. It takes no memory.
    pub fn new(alloc: Global) -> KeywordCounts
        ensures { result ≡ [] }
    {
        KeywordCounts {
            alloc,
            counts: BTreeMap::new(alloc),
        }
    }

    /// Counts the keywords of the records of an instance, each for itself.
    ///
    /// # Errors
    ///
    /// `NoMemory`.
    pub fn add(&mut self, of: &Record) -> Result<(), NoMemory>
        ensures { (words : List (List ℕ)) → AreCounts words self.old → OnOk result (AreCounts (words ++ record_keywords (record_view of.now)) self.new) }
    {
        match of {
            Record::Simple(part) => self.add_part(part),
            Record::Complex(parts) => self.add_parts(parts.items()),
        }
    }

    /// A line for each keyword, in the order of their bytes: the keyword, and how often it stands.
    ///
    /// # Errors
    ///
    /// `NoMemory`.
    pub fn text(&self, alloc: Global) -> Result<Vec<u8>, NoMemory>
        ensures { IfOk result (λ text. text.items ≡ counts_text self.now) }
    {
        let mut text = Vec::new(alloc);
        for (word, count) in &self.counts {
            push_count(alloc, &mut text, word, *count)?;
        }
        Ok(text)
    }

    fn add_parts(&mut self, parts: &[Part]) -> Result<(), NoMemory>
        ensures { (words : List (List ℕ)) → AreCounts words self.old → OnOk result (AreCounts (words ++ map (λ part. key_text (part_view part).key) parts.now) self.new) }
    {
        for part in parts {
            self.add_part(part)?;
        }
        Ok(())
    }

    fn add_part(&mut self, part: &Part) -> Result<(), NoMemory>
        ensures { (words : List (List ℕ)) → AreCounts words self.old → OnOk result (AreCounts (words ++ key_text (part_view part.now).key ∷ []) self.new) }
    {
        if !part.key.user {
            return self.add_word(part.key.word.bytes());
        }
        let mut word = Vec::new(self.alloc);
        push_key(&mut word, &part.key)?;
        self.add_word(&word)
    }

    fn add_word(&mut self, word: &[u8]) -> Result<(), NoMemory>
        ensures { (words : List (List ℕ)) → AreCounts words self.old → OnOk result (AreCounts (words ++ word.now ∷ []) self.new) }
    {
        if let Some(count) = self.counts.get_mut(word) {
            // A file has fewer bytes than this.
            let Some(more) = count.checked_add(1) else {
                return Err(NoMemory);
            };
            *count = more;
            return Ok(());
        }
        let word = Vec::from_slice(self.alloc, word)?;
        self.counts.insert(word, 1)?;
        Ok(())
    }
}

/// Appends the line of a keyword.
fn push_count(alloc: Global, out: &mut Vec<u8>, word: &[u8], count: u64) -> Result<(), NoMemory>
    ensures { OnOk result (out.new.items ≡ out.old.items ++ count_line (word.now, count)) }
{
    out.extend_from_slice(word)?;
    out.extend_from_slice(format!(in alloc; " {count}\n")?.as_bytes())?;
    Ok(())
}
