//! Tests of catalogues of two-line sets, and the definitions of names and catalogues on small cases.
#![tactic(auto)]

ghost use Rattle.rows_catalogue.specs.SmallNames.{SmallCatalogues, SmallNames};

#[cfg(test)]
mod adding;
#[cfg(test)]
mod cuts;
#[cfg(test)]
mod files;
#[cfg(test)]
mod many;
#[cfg(test)]
mod texts;

/// Texts that are names and texts that are not.
pub fn small_names()
    ensures { SmallNames }
{}

/// Lists that are no catalogues.
pub fn small_catalogues()
    ensures { SmallCatalogues }
{}
