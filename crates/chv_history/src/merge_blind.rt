// What queries that do not see merges give, and FINAL.
ghost use Rattle.std.specs.Prelude.{◌≡◌, true, List, Ok};
ghost use Rattle.std.specs.List.{flat_map};
ghost use Rattle.chv_agg.specs.OfKinds.{AllAreOf};
ghost use Rattle.chv_ast.specs.declared.statement.Select.{Select};
ghost use Rattle.chv_catalog.specs.Schemas.{Catalog, kinds_of};
ghost use Rattle.chv_part.specs.Books.{TableForm, normal_rows};
ghost use Rattle.chv_part.specs.Forms.{form_of};
ghost use Rattle.chv_query.specs.Accepted.{IsCatalog};
ghost use Rattle.chv_query.specs.Queries.{Asked, asked, is_merge_blind, result_of};
ghost use Rattle.chv_types.specs.declared.value.Value.{Value};

/// A query that does not see merges gives the same over the rows of a table's parts, whichever merges have been, as over its rows
/// as a whole; and so does FINAL: rows of parts have the normal form of all rows.
///
/// A part is given as the rows that were put into it, and has their normal form.
pub fn law_merge_blind()
    ensures blind { (catalog : Catalog) (select : Select) (query : Asked) (parts : List (List (List Value))) → IsCatalog catalog → asked catalog select ≡ Ok query
        → is_merge_blind query ≡ true → AllAreOf (kinds_of query.def) (flat_map (λ rows. rows) parts)
        → result_of query (flat_map (normal_rows (form_of query.def)) parts) ≡ result_of query (normal_rows (form_of query.def) (flat_map (λ rows. rows) parts)) }
    ensures merged { (form : TableForm) (parts : List (List (List Value))) → normal_rows form (flat_map (normal_rows form) parts) ≡ normal_rows form (flat_map (λ rows. rows) parts) }
{}
