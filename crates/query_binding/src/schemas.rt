//! Where the schemas of tables are found by name.
ghost use Rattle.std.specs.Prelude.{◌≡◌, List, option_map};
ghost use Rattle.vo_spec.specs.Tables.{TableHeader, table_header_named};

use vo_spec::Schema;

/// Tables by name, of which only the schemas are seen: plain tables, or a catalog.
pub trait Schemas {
    ghost table_headers: { Self → List TableHeader };

    /// The schema of the first table of this name.
    fn schema(&self, name: &[u8]) -> Option<&Schema>
        ensures { option_map (λ s. s.now) result
            ≡ option_map (λ h. h.schema) (table_header_named name.now (table_headers self.now)) };
}
