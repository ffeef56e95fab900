//! The printer: what it prints from, what it writes to, and what was added to it.

ghost use Rattle.std.specs.Prelude.{◌≡◌, ◌++◌, true, OnErr, OnOk, map};
ghost use Rattle.hir_pretty_layout.specs.Page.{render};
ghost use Rattle.hir_pretty_nodes.specs.Prelude.{words_of, text, join, path_docs, docs_one_by_one, print_env, lookups_of, begun, on_page, printing_of, AddsTo};

use hir_base::Edition;
use hir_collections::Text;
use hir_defs::Tables;
use hir_node::Path;
use hir_pretty_docs::{Part, Token, Tokens};
use hir_pretty_layout::{LineFormat, PageBuffer};
use hir_store_core::ExpressionStore;
use std::alloc::{AllocError, Global};

/// Prints what is added to it, in order, by the five calls of a
/// [`PieceWriter`](hir_pretty_layout::PieceWriter). Contracts see what it prints from, the documents that
/// were added, and the writer's value.
#[derive(Drop)]
pub struct Printer<'a, W> {
    pub(crate) store: &'a ExpressionStore,
    pub(crate) tables: &'a Tables,
    pub(crate) words: &'a [Text],
    pub(crate) one_line: bool,
    pub(crate) writer: W,
    /// What was added.
    pub tokens: Tokens<'a>,
}

impl<'a> Printer<'a, PageBuffer> {
    /// A printer onto an empty page. It allocates from `alloc`, and nothing now.
    pub fn new(
        alloc: Global,
        store: &'a ExpressionStore,
        tables: &'a Tables,
        edition: Edition,
        one_line: bool,
    ) -> Printer<'a, PageBuffer>
        ensures { printing_of result ≡ on_page
            (print_env store.now (lookups_of tables.now) (words_of tables.now.words edition) one_line) }
    {
        let format = if one_line {
            LineFormat::Oneline
        } else {
            LineFormat::Newline
        };
        let page = PageBuffer::new(alloc, format);
        Printer::over(alloc, page, store, tables, edition, one_line)
    }
}

impl<'a, W> Printer<'a, W> {
    /// A printer that writes to this, from a store and tables, with the words of an edition, to which nothing
    /// was added. `one_line` says that all is written in one line, where some layout is for lines alone. It
    /// allocates from `alloc`, and nothing now.
    pub fn over(
        alloc: Global,
        writer: W,
        store: &'a ExpressionStore,
        tables: &'a Tables,
        edition: Edition,
        one_line: bool,
    ) -> Printer<'a, W>
        ensures { printing_of result ≡ begun
            (print_env store.now (lookups_of tables.now) (words_of tables.now.words edition) one_line)
            writer }
    {
        Printer {
            store,
            tables,
            words: tables.raw_words(edition),
            one_line,
            writer,
            tokens: Tokens::new(alloc),
        }
    }

    /// Adds tokens.
    ///
    /// Fails with `AllocError` where an allocation fails, or failed before: what is printed then is that.
    pub fn add(&mut self, tokens: &[Token<'a>]) -> Result<(), AllocError>
        ensures ok { OnOk result (AddsTo (printing_of self.old)
            (λ s. docs_one_by_one s tokens.now) (printing_of self.new)) }
        ensures err { OnErr result ((printing_of self.new).refused ≡ true) }
    {
        self.tokens.add(tokens);
        self.tokens.check()
    }

    /// Adds the members of a list with a text between them.
    ///
    /// Fails as `add` does.
    pub fn add_joined<T: Part>(
        &mut self,
        between: &'a str,
        members: &'a [T],
    ) -> Result<(), AllocError>
        ensures ok { OnOk result (AddsTo (printing_of self.old)
            (λ s. join (text between.now) (map (T.docs s) members.now)) (printing_of self.new)) }
        ensures err { OnErr result ((printing_of self.new).refused ≡ true) }
    {
        self.tokens.add_joined(between, members);
        self.tokens.check()
    }

    /// Adds what a path is printed as.
    ///
    /// Fails as `add` does.
    pub fn add_path(&mut self, path: &'a Path) -> Result<(), AllocError>
        ensures ok { OnOk result (AddsTo (printing_of self.old)
            (λ s. path_docs s path.now) (printing_of self.new)) }
        ensures err { OnErr result ((printing_of self.new).refused ≡ true) }
    {
        self.tokens.add_path(path);
        self.tokens.check()
    }
}
