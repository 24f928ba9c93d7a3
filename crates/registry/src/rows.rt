// The row of a house's name, found by halving the house's entries.
ghost use Rattle.std.specs.Prelude.{◌≡◌, ◌<◌, length, MatchOption, MatchResult};
ghost use Rattle.registry.specs.Index.{HasRow, Missing};
ghost use Rattle.registry.specs.Numbered.{certificates_of};
ghost use Rattle.registry.specs.Rows.{row_of};

use crate::Registry;

impl Registry {
    // The row of a house's name, if some certificate states it.
    pub fn row(&self, house: u16, name: u16) -> Option<u16>
        ensures { MatchOption result (row_of (certificates_of self.now) house name ≡ length (certificates_of self.now)) (λ x. (x ≡ row_of (certificates_of self.now) house name) × (x < length (certificates_of self.now))) }
    {
        let place = self.search(house, name).ok()?;
        Some(self.index.entries[place].row)
    }

    // The place of the entry of a house's name, or else the place where it would be entered.
    pub(crate) fn search(&self, house: u16, name: u16) -> Result<usize, usize>
        ensures { MatchResult result (HasRow self.now.index.entries.items (certificates_of self.now) house name) (Missing self.now.index.entries.items (certificates_of self.now) house name) }
    {
        let (start, end) = self.index.entries_of(house);
        let names = &self.index.entries[start..end];
        // Case by case: with `map` and `map_err` the clause stays open.
        match names.binary_search_by_key(&name, |entry| entry.name) {
            Ok(place) => Ok(start + place),
            Err(place) => Err(start + place),
        }
    }
}
