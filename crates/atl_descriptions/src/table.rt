//! A table and the texts of its statements, and `table!`, which makes them of the names and types
//! of the columns.

use atl_world::Format;

/// A unique key of a table that isn't the row's number. The file keeps it in an index.
#[derive(Clone, Copy)]
pub struct UniqueKey {
    /// The indexes of its columns in a stored row, whose first column has the index 1.
    pub columns: &'static [usize],
    /// The name that the database gives the index.
    pub index: &'static str,
    /// The number of the tree that holds the index.
    pub tree: u32,
}

/// A table: its tree, its name, its columns' names in their order, its keys, the text that makes
/// it, and the SELECT of all its rows in the order of its key. Tables and the indexes of their keys
/// take the trees of a file in the order in which they are made.
#[derive(Clone, Copy)]
pub struct Table {
    /// The number of the tree that holds the rows.
    pub tree: u32,
    pub name: &'static str,
    pub names: &'static [&'static str],
    /// The index, among the columns, of the one that is the row's number; None if there is none.
    pub number: Option<usize>,
    /// The indexes of the primary key's columns in a stored row; 0 is the row's number.
    pub primary: &'static [usize],
    pub unique: Option<UniqueKey>,
    /// Whether its only check is `id = 1` of its first column; else the table has no check.
    pub is_single: bool,
    pub create: &'static str,
    /// The first format that has the table.
    pub since: Format,
    pub select: &'static str,
}

/// The INSERT of a row, which changes the row with its key if there is one; and the DELETE of the
/// row with a given key.
#[derive(Clone, Copy)]
pub struct Statements {
    pub upsert: &'static str,
    pub delete: &'static str,
}

/// A table and its statements by its columns, each with its parameter's number, its name and its
/// type. Before them stand the first format that has the table, its tree's number and its name. The
/// key is the row's number (`number`, without a type), or several columns (`keys`, with the tree of
/// its index); then the SELECT shows the rowid as a last column.
#[macro_export]
macro_rules! table {
    ($since:ident $tree:literal $name:literal
        number { $kn:literal $key:literal }
        columns { $n:literal $column:literal $kind:literal
            $(, $ns:literal $columns:literal $kinds:literal)* }) => {
        (
            Table {
                tree: $tree,
                name: $name,
                names: &[$key, $column $(, $columns)*],
                number: Some(0),
                primary: &[0],
                unique: None,
                is_single: false,
                create: concat!("CREATE TABLE ", $name, " (", $key, " INTEGER NOT NULL PRIMARY KEY, ",
                    $column, " ", $kind, " NOT NULL" $(, ", ", $columns, " ", $kinds, " NOT NULL")*, ") STRICT"),
                since: Format::$since,
                select: concat!("SELECT ", $key, ", ", $column $(, ", ", $columns)*,
                    " FROM ", $name, " ORDER BY ", $key),
            },
            Statements {
                upsert: concat!("INSERT INTO ", $name, " (", $key, ", ", $column $(, ", ", $columns)*,
                    ") VALUES (?", $kn, ", ?", $n $(, ", ?", $ns)*,
                    ") ON CONFLICT (", $key, ") DO UPDATE SET ", $column, " = ?", $n $(, ", ", $columns, " = ?", $ns)*),
                delete: concat!("DELETE FROM ", $name, " WHERE ", $key, " = ?", $kn),
            },
        )
    };
    ($since:ident $tree:literal $name:literal
        keys $index:literal { $kn:literal $key:literal $key_kind:literal
            $(, $kns:literal $keys:literal $key_kinds:literal)* }
        columns { $n:literal $column:literal $kind:literal
            $(, $ns:literal $columns:literal $kinds:literal)* }) => {
        (
            Table {
                tree: $tree,
                name: $name,
                names: &[$key, $($keys,)* $column $(, $columns)*],
                number: None,
                primary: &[$kn $(, $kns)*],
                unique: Some(UniqueKey {
                    columns: &[$kn $(, $kns)*],
                    index: concat!("sqlite_autoindex_", $name, "_1"),
                    tree: $index,
                }),
                is_single: false,
                create: concat!("CREATE TABLE ", $name, " (", $key, " ", $key_kind, " NOT NULL, "
                    $(, $keys, " ", $key_kinds, " NOT NULL, ")*,
                    $column, " ", $kind, " NOT NULL" $(, ", ", $columns, " ", $kinds, " NOT NULL")*,
                    ", PRIMARY KEY (", $key $(, ", ", $keys)*, ")) STRICT"),
                since: Format::$since,
                select: concat!("SELECT ", $key $(, ", ", $keys)*, ", ", $column $(, ", ", $columns)*,
                    ", rowid FROM ", $name, " ORDER BY ", $key $(, ", ", $keys)*),
            },
            Statements {
                upsert: concat!("INSERT INTO ", $name, " (", $key $(, ", ", $keys)*, ", ", $column $(, ", ", $columns)*,
                    ") VALUES (?", $kn $(, ", ?", $kns)*, ", ?", $n $(, ", ?", $ns)*,
                    ") ON CONFLICT (", $key $(, ", ", $keys)*, ") DO UPDATE SET ", $column, " = ?", $n $(, ", ", $columns, " = ?", $ns)*),
                delete: concat!("DELETE FROM ", $name, " WHERE ", $key, " = ?", $kn $(, " AND ", $keys, " = ?", $kns)*),
            },
        )
    };
}
