//! Tests of atl_report's public calls: the texts of reports and of books. The wanted texts are
//! written by hand from docs/FORMATS.md, "Reports" and "Books".
mod books;
mod markets;
mod orders;
mod scenes;
mod sight;
mod whole;
