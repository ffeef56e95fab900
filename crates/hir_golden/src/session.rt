//! A session that takes the lines of `hir_text`, and those that only golden cases ask.

use hir_golden_probes::{
    Probe, add_input, answer_run, ask_beside, ask_fault, read_probe, read_run,
};
use hir_text::Session;
use hir_text_defs::{Asked, Finished};
use hir_text_words::{Answer, Answers, Lines, TextError, TextFault, Words, answer_by, is_skipped};
use std::alloc::{AllocError, Global};
use std::mem;

/// What the lines of a golden case have made so far.
#[derive(Drop)]
struct GoldenSession {
    alloc: Global,
    session: Session,
    /// The store that is kept, and its source map.
    kept: Option<Finished>,
    /// Whether questions ask the store that is kept: no line of the session came after `keep`.
    asks_kept: bool,
    /// The input of the next run of the program.
    input: Vec<u8>,
}

/// Reads a text of lines, and gives the answer to each question in it.
pub(crate) fn answer(alloc: Global, text: &str, answers: &mut Answers) -> Result<(), TextFault> {
    let mut session = GoldenSession::new(alloc)?;
    answer_by(&mut session, text, answers)
}

/// Returns what was answered by a second call, where that is out of memory the answer that says so.
fn second_answer(
    alloc: Global,
    outcome: Result<Option<Answer>, TextError>,
) -> Result<Option<Answer>, TextError> {
    if !matches!(outcome, Err(TextError::Memory)) {
        return outcome;
    }
    let mut answer = Answer::new(alloc);
    answer.refuse();
    answer.word("Memory")?;
    Ok(Some(answer))
}

/// The store that is kept, as one that questions ask.
fn asked_kept<'a>(session: &'a Session, kept: &'a Finished) -> Asked<'a> {
    Asked {
        tables: session.tables(),
        store: &kept.0,
        sources: &kept.1,
        owner: None,
    }
}

impl GoldenSession {
    fn new(alloc: Global) -> Result<GoldenSession, AllocError> {
        Ok(GoldenSession {
            alloc,
            session: Session::new(alloc)?,
            kept: None,
            asks_kept: false,
            input: Vec::new(alloc),
        })
    }

    /// `keep`: keeps the store that questions ask, which probes ask until a line of the session comes.
    fn keep(&mut self, words: Words<'_>) -> Result<Option<Answer>, TextError> {
        let mut words = words;
        words.end()?;
        let mut answer = Answer::new(self.alloc);
        if let Some(finished) = self.session.take_finished(&mut answer)? {
            self.kept = Some(finished);
            self.asks_kept = true;
            answer.word("kept")?;
        }
        Ok(Some(answer))
    }

    /// `run ..`: runs the program over the input so far, and begins a new input.
    fn run(&mut self, words: Words<'_>) -> Result<Option<Answer>, TextError> {
        let (good_reads, good_writes) = read_run(words)?;
        let input = mem::replace(&mut self.input, Vec::new(self.alloc));
        let mut answer = Answer::new(self.alloc);
        answer_run(
            self.alloc,
            input.as_slice(),
            good_reads,
            good_writes,
            &mut answer,
        )?;
        Ok(Some(answer))
    }

    /// Writes the answer to a probe of the store that questions ask. Where there is none, the answer says
    /// why.
    fn ask(&mut self, probe: &Probe) -> Result<Option<Answer>, TextError> {
        let mut answer = Answer::new(self.alloc);
        let kept = self.kept.as_ref();
        if let Some(kept) = kept
            && self.asks_kept
        {
            let asked = asked_kept(&self.session, kept);
            probe.ask(self.alloc, Some(kept), &asked, &mut answer)?;
        } else if self.session.finish(&mut answer)?
            && let Some(asked) = self.session.asked()
        {
            probe.ask(self.alloc, kept, &asked, &mut answer)?;
        }
        Ok(Some(answer))
    }

    /// Does what a line says. Returns the answer, where the line has one.
    fn take_once(&mut self, line: &[u8]) -> Result<Option<Answer>, TextError> {
        let mut words = Words::new(self.alloc, line);
        if words.eat(">") {
            add_input(&mut self.input, words)?;
            return Ok(None);
        }
        match words.keyword() {
            "keep" => self.keep(words),
            "run" => self.run(words),
            "fault" => ask_fault(self.alloc, words),
            "beside" => ask_beside(self.alloc, self.session.tables(), words),
            word => match read_probe(word, words)? {
                Some(probe) => self.ask(&probe),
                None => {
                    self.asks_kept = self.asks_kept && is_skipped(line);
                    self.session.take_line(line)
                }
            },
        }
    }

    /// `bad LINE`: gives the line to the session, and writes whether it is a bad line.
    fn ask_bad(&mut self, line: &[u8]) -> Result<Option<Answer>, TextError> {
        self.asks_kept = self.asks_kept && is_skipped(line);
        let is_bad = match self.session.take_line(line) {
            Err(TextError::Syntax) => true,
            Err(TextError::Memory) => return Err(TextError::Memory),
            Ok(_) => false,
        };
        let mut answer = Answer::new(self.alloc);
        answer.word(if is_bad { "yes" } else { "no" })?;
        Ok(Some(answer))
    }

    /// `again QUESTION`: finishes the nodes and writes the answer to the question, by a second call where an
    /// allocation for it fails.
    // The nodes are finished before, and once: where an allocation for that fails, they don't exist any more.
    fn ask_again(&mut self, question: &[u8]) -> Result<Option<Answer>, TextError> {
        let mut scratch = Answer::new(self.alloc);
        if !self.session.finish(&mut scratch)? {
            return self.take_once(question);
        }
        match self.take_once(question) {
            Err(TextError::Memory) => second_answer(self.alloc, self.take_once(question)),
            outcome => outcome,
        }
    }
}

impl Lines for GoldenSession {
    ghost takes = { λ _ _ _ _. Unit {0} };

    fn take_line(&mut self, line: &[u8]) -> Result<Option<Answer>, TextError> {
        let mut words = Words::new(self.alloc, line);
        if words.eat("bad ") {
            return self.ask_bad(words.rest());
        }
        if !words.eat("again ") {
            return self.take_once(line);
        }
        match self.ask_again(words.rest())? {
            Some(answer) => Ok(Some(answer)),
            None => Err(TextError::Syntax),
        }
    }
}
