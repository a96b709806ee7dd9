//! What rows stand for, in laws. Their bodies are empty: only their contracts count.

ghost use Rattle.std.specs.Prelude.{◌≡◌, ◌⊎◌};
ghost use Rattle.sqlite_trees.specs.Tree.{Trees};
ghost use Rattle.sqlite_trees.specs.Objects.{catalog_tree};
ghost use Rattle.sqlite_schema.specs.declared.schema.Schema.{Schema};
ghost use Rattle.sqlite_catalog.specs.Listing.{Lists};
ghost use Rattle.poll_book.specs.Tables.{Tables};
ghost use Rattle.office_store.specs.Schema.{office_schema};
ghost use Rattle.office_store.specs.Kept.{IsOffice, StandFor};

/// Rows stand for one state of an office's tables.
pub fn stands_once()
    ensures { (db : Trees) (a b : Tables) → StandFor db a → StandFor db b → a ≡ b }
{}

/// Tables that some schema lists are an office's, or they are not.
pub fn office_or_not()
    ensures { (db : Trees) (schema : Schema) → Lists (db catalog_tree) schema → IsOffice db ⊎ (IsOffice db → ⊥) }
{}

/// The schema that an office's tables list is the office's.
pub fn lists_office()
    ensures { (db : Trees) (schema : Schema) → Lists (db catalog_tree) schema → IsOffice db → schema ≡ office_schema }
{}
