ghost use Rattle.std.specs.Prelude.{◌≡◌, ℕ, ◌<◌, ◌^◌, Some, None, length, map, IfSome};
ghost use Rattle.std.specs.Option.{option_map, IfNone};
ghost use Rattle.block_meaning.specs.Tables as tables;
ghost use Rattle.ion_cells.specs.Left.{name_of};
ghost use Rattle.ion_symtab.specs.Laws.{NumbersHaveTexts};

use std::marker::Model;

/// The texts of a symbol table, which strictly increase by bytes and are numbered from 10. They lie where they were read.
#[derive(Drop)]
pub struct SymTab<'b> {
    texts: Vec<&'b str>,
}

impl<'b> Model for SymTab<'b> {
    ghost use Rattle.std.specs.Prelude.{List, ℕ, map, length, ◌<◌, ◌^◌};
    ghost use Rattle.block_meaning.specs.Tables.{TextsRise};

    ghost Value = { List (List ℕ) };

    ghost view = { λ t. map (λ s. s.now) t.texts.items };

    ghost invariant = { λ t. TextsRise (map (λ s. s.now) t.texts.items) × (length t.texts.items < 2 ^ 31) };
}

impl<'b> SymTab<'b> {
    /// The table of these texts, which strictly increase.
    pub(crate) fn of_texts(texts: Vec<&'b str>) -> SymTab<'b>
        requires rise { tables.TextsRise (map (λ s. s.now) texts.items) }
        requires few { length texts.items < 2 ^ 31 }
        ensures { result ≡ map (λ s. s.now) texts.entry.items }
    {
        SymTab { texts }
    }

    /// The number of the text, None exactly where the table lacks it. It takes steps in the logarithm of the table's size.
    pub fn number_of(&self, text: &str) -> Option<u32>
        ensures found { IfSome result (λ n. tables.text_of self.now n ≡ Some text.now) }
        ensures absent { IfNone result ((n : ℕ) → tables.text_of self.now n ≡ Some text.now → ⊥) }
    {
        match self.texts.binary_search(&text) {
            Ok(place) => Some(place as u32 + 10),
            Err(_) => None,
        }
    }

    /// The text of the number, None exactly where it isn't from 10 to the table's last.
    pub fn text_of(&self, number: u32) -> Option<&'b str>
        ensures { option_map (λ s. s.now) result ≡ tables.text_of self.now number }
    {
        if number < 10 {
            return None;
        }
        self.texts.get((number - 10) as usize).copied()
    }

    /// The text of the number, empty where it has none.
    #[inline(always)]
    pub fn name_of(&self, number: u32) -> &'b str
        ensures { result.now ≡ name_of self.now number }
    {
        self.text_of(number).unwrap_or("")
    }

    /// The last number, 9 where the table has no text.
    pub fn last(&self) -> u32
        ensures { result ≡ tables.last_symbol self.now }
    {
        self.texts.len() as u32 + 9
    }

    /// Tells what holds of every table.
    pub fn know(&self)
        ensures { tables.TextsRise self.now }
    {
        let _ = &self.texts;
    }
}

/// A table has a text for each number from 10 to its last, and for no other.
pub fn numbers_have_texts()
    ensures { NumbersHaveTexts }
{}
