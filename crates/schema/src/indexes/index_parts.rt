//! Indexes and their columns.
ghost use Rattle.std.specs.Prelude.{◌≡◌, option_map};
ghost use Rattle.expr.specs.View.{term};
ghost use Rattle.schema.specs.indexes.IndexView.{index_data};

use expr::Expr;
use sql_reader_grammar::KeyOrder;
use std::marker::Model;

/// A column of an index. (CREATE INDEX, "Indexed column")
#[derive(Debug, Drop)]
pub struct IndexedColumn {
    pub(crate) place: usize,
    pub(crate) order: KeyOrder,
}

impl Model for IndexedColumn {
    ghost use Rattle.schema.specs.indexes.IndexData.{IndexedData};

    ghost Value = { IndexedData };

    ghost view = { λ c. record { place = c.place; order = c.order } };
}

impl IndexedColumn {
    /// The column's place among those of the table.
    pub fn place(&self) -> usize
        ensures { result ≡ self.now.place }
    {
        self.place
    }

    /// The order in which the index has its values.
    pub fn order(&self) -> KeyOrder
        ensures { result ≡ self.now.order }
    {
        self.order
    }
}

/// An index of a table. (CREATE INDEX)
#[derive(Drop)]
pub struct Index {
    pub(crate) name: String,
    pub(crate) table: String,
    pub(crate) root: u32,
    pub(crate) columns: Vec<IndexedColumn>,
    pub(crate) others: Vec<usize>,
    pub(crate) is_unique: bool,
    pub(crate) condition: Option<Expr>,
}

impl Index {
    /// The name, as it was declared.
    pub fn name(&self) -> &str
        ensures { result.now ≡ (index_data self.now).name }
    {
        self.name.as_str()
    }

    /// The name of the table, as it was declared for the index.
    pub fn table(&self) -> &str
        ensures { result.now ≡ (index_data self.now).table }
    {
        self.table.as_str()
    }

    /// The page at the root of the index's tree.
    pub fn root(&self) -> u32
        ensures { result ≡ (index_data self.now).root }
    {
        self.root
    }

    /// The columns, in the order in which the index sorts by them.
    pub fn columns(&self) -> &[IndexedColumn]
        ensures { result.now ≡ (index_data self.now).columns }
    {
        self.columns.as_slice()
    }

    /// The places of the columns of its table's PRIMARY KEY that it lacks, in the key's order, where rows are found by that: an
    /// entry has them behind the columns. (Database File Format, "Suppression of redundant columns in WITHOUT ROWID secondary
    /// indexes")
    pub fn others(&self) -> &[usize]
        ensures { result.now ≡ (index_data self.now).others }
    {
        self.others.as_slice()
    }

    /// Whether no two rows may agree in all of the columns, unless one of these is NULL. (CREATE INDEX, "Unique Indexes")
    pub fn is_unique(&self) -> bool
        ensures { result ≡ (index_data self.now).is_unique }
    {
        self.is_unique
    }

    /// The condition on a row's columns, where the index has only rows of which it is true. (Partial Indexes)
    pub fn condition(&self) -> Option<&Expr>
        ensures { option_map (λ e. term e.now) result ≡ (index_data self.now).condition }
    {
        self.condition.as_ref()
    }
}
