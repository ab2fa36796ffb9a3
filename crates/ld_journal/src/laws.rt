// Laws of the text of journals, and a worked example.
ghost use Rattle.std.specs.Prelude.{◌≡◌, ◌+◌, ◌++◌, ℕ, List, length, sum_by};
ghost use Rattle.ld_base.specs.declared.entry.Entry.{Entry};
ghost use Rattle.ld_line.specs.Line.{line_feeds};
ghost use Rattle.ld_journal.specs.Example.{arrival_dropped, back, front, whole_header};
ghost use Rattle.ld_journal.specs.Journal.{journal_lines, journal_text, samples_of};
ghost use Rattle.ld_journal.specs.Writable.{IsCutText};
ghost use Rattle.ld_journal.specs.declared.header.Header.{Header};

/// A journal has six lines for its header and one for its end, and each entry adds exactly one line,
/// and one for each of its samples. Its text has one line feed for each line, beside those of the test.
pub fn lines_counted()
    ensures lines { (header : Header) (entries : List Entry) →
        length (journal_lines header entries) ≡ 7 + sum_by (λ (entry : Entry). 1 + length (samples_of entry.act)) entries }
    ensures feeds { (header : Header) (entries : List Entry) → IsCutText header.segment → IsCutText header.sequence →
        line_feeds (journal_text header entries) ≡ line_feeds header.test + length (journal_lines header entries) }
{}

/// The journal of a run of a test of 188 bytes with two arrivals, of which the second is dropped, byte
/// for byte.
pub fn arrival_dropped_text()
    ensures { (test : List ℕ) → length test ≡ 188 →
        journal_text (whole_header test) arrival_dropped ≡ front ++ test ++ back }
{}
