//! The symbol table of a block that is written.
ghost use Rattle.std.specs.Prelude.{◌≡◌, map};
ghost use Rattle.write_meaning.specs.Encoding as meant;
ghost use Rattle.block_meaning.specs.Tables as tables;

use std::marker::Model;

/// The texts of a symbol table, which strictly increase by bytes and are numbered from 10. They lie in the rows.
#[derive(Drop)]
pub struct Table<'b> {
    texts: Vec<&'b str>,
}

impl<'b> Model for Table<'b> {
    ghost use Rattle.std.specs.Prelude.{List, ℕ, map};
    ghost use Rattle.block_meaning.specs.Tables.{TextsRise};

    ghost Value = { List (List ℕ) };

    ghost view = { λ t. map (λ s. s.now) t.texts.items };

    ghost invariant = { λ t. TextsRise (map (λ s. s.now) t.texts.items) };
}

impl<'b> Table<'b> {
    /// The table of these texts, which strictly increase.
    pub(crate) fn of_texts(texts: Vec<&'b str>) -> Table<'b>
        requires { tables.TextsRise (map (λ s. s.now) texts.items) }
        ensures { result ≡ map (λ s. s.now) texts.entry.items }
    {
        Table { texts }
    }

    /// The texts.
    pub(crate) fn as_slice(&self) -> &[&'b str]
        ensures { map (λ s. s.now) result.now ≡ self.now }
    {
        self.texts.as_slice()
    }

    /// The number of the text, None where the table lacks it. It takes steps in the logarithm of the table's size.
    pub(crate) fn number_of(&self, text: &str) -> Option<u64>
        ensures { result ≡ meant.number_of self.now text.now }
    {
        match self.texts.binary_search(&text) {
            Ok(place) => Some(place as u64 + 10),
            Err(_) => None,
        }
    }

    /// Tells what holds of every table.
    pub fn know(&self)
        ensures { tables.TextsRise self.now }
    {
        let _ = &self.texts;
    }
}
