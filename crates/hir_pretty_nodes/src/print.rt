//! The printer's loop, and the text that it gives.

ghost use Rattle.std.specs.Prelude.{◌≡◌, true, Some, Err, IfOk};
ghost use Rattle.hir_pretty_layout.specs.Page.{empty_page};
ghost use Rattle.hir_pretty_nodes.specs.Prelude.{Missing, doc_list_pieces, PrintsPieces, WritesPieces, format_of, printing_of, stacked, all_printed, NextNode};
ghost use Rattle.hir_pretty_nodes.specs.declared.fault.PrintFault.TheVariants as fault;

use crate::laws::docs_decrease;
use crate::{PrintFault, Printer, Token};
use hir_pretty_layout::{PageBuffer, PieceWriter};

impl<'a, W: PieceWriter> Printer<'a, W> {
    /// Writes what waits up to the next node, and returns that node, or that nothing waits any more.
    fn next_node(&mut self) -> Result<Option<Token<'a>>, PrintFault>
        ensures ok { IfOk result (λ found. NextNode W.step (stacked self.old) found (stacked self.new)) }
        ensures missing { (m : Missing) → result ≡ Err (fault.Missing m)
            → (all_printed W.step (stacked self.old)).1 ≡ Some m }
    {
        while let Some(token) = self.tokens.stack.pop() {
            if token.is_node() {
                return Ok(Some(token));
            }
            self.write_token(&token)?;
        }
        Ok(None)
    }
}

impl<'a, W: PieceWriter + Drop> Printer<'a, W> {
    /// Writes what was added, and gives back what it was written to.
    ///
    /// Returns `Missing` of the first definition that the doc pieces name and the tables don't have, and
    /// `Memory` where an allocation fails.
    pub fn finish(mut self) -> Result<W, PrintFault>
        ensures pieces { let p = printing_of self.entry in
            WritesPieces W.step (doc_list_pieces p.from p.added) p.value result }
        ensures memory { (printing_of self.entry).refused ≡ true → result ≡ Err fault.Memory }
    {
        self.store.has_no_fault();
        docs_decrease();
        self.tokens.stack.push_deferred(0)?;
        'nodes: loop {
            match self.next_node() {
                Err(fault) => return Err(fault),
                Ok(None) => break,
                Ok(Some(node)) => {
                    let below = self.tokens.stack.len();
                    self.expand(&node)?;
                    self.tokens.stack.push_deferred(below)?;
                }
            }
        }
        let Printer { writer, .. } = self;
        Ok(writer)
    }
}

impl<'a> Printer<'a, PageBuffer> {
    /// The text of what was added, on the page that `new` began.
    ///
    /// Returns `Missing` of the first definition that the text names and the tables don't have, and `Memory`
    /// where an allocation fails.
    pub fn print(self) -> Result<String, PrintFault>
        ensures pieces { let p = printing_of self.entry in p.value ≡ empty_page (format_of p.from.one_line)
            → PrintsPieces p.from (doc_list_pieces p.from p.added) result }
        ensures memory { (printing_of self.entry).refused ≡ true → result ≡ Err fault.Memory }
    {
        let page = self.finish()?;
        Ok(page.into_text())
    }
}
