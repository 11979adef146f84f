//! The top call: the words; of a life the script, the image from which a resume goes on, the life and its report; of a check the image and the
//! state that it recovers to; and of a drill its nine lives and their summary.

ghost use Rattle.std.specs.Prelude.{◌≡◌, ◌⊎◌, ◌↔◌, ℕ, List, [], map, None, Some};
ghost use Rattle.std.specs.FinMap.{get};
ghost use Rattle.std.specs.String.{string_bytes};
ghost use Rattle.byte_ports.specs.Bytes.{TookSome, Appended, AppendedSome};
ghost use Rattle.byte_ports.specs.Causes.{Rose};
ghost use Rattle.byte_ports.specs.Images.{Named, Finds, OthersSame};
ghost use Rattle.life_model.specs.declared.life.Life.{Life};
ghost use Rattle.life_model.specs.declared.life.Outcome.TheVariants as ends;
ghost use Rattle.script_text.specs.Program.{Program};
ghost use Rattle.script_text.specs.Built.{IsBuiltText};
ghost use Rattle.script_text.specs.ReportText.{report_bytes};
ghost use Rattle.respct.specs.declared.fitting.Misfit.{Misfit as FirstMisfit};
ghost use Rattle.respct.specs.declared.status.Status.TheVariants.{Finished, Usage, Script, Stalled, Cut, Image, Misfit, ReadFault, WriteFault};
ghost use Rattle.respct.specs.declared.status.Status.TheVariants.{StoreFault, NoImage, OutOfMemory, TooLong};
ghost use Rattle.respct.specs.declared.answer.PlainAnswer.TheVariants.{Ended};
ghost use Rattle.program_words.specs.Words.{IsResume, IsCheck, IsDrill, AskFor, AreOfNoForm};
ghost use Rattle.respct.specs.Openings.{IsMisfit};
ghost use Rattle.respct.specs.Run.{Led, HasRead, IsLed, HasSaved};
ghost use Rattle.respct.specs.Loads.{IsFaulty};
ghost use Rattle.respct.specs.Checks.{HasChecked, HasCheckedSome};
ghost use Rattle.respct.specs.Drills.{HasDrilled, HasDrilledSome, IsDrillStarved, IsApart};
ghost use Rattle.respct.specs.Enough.{IsInTime};
ghost use Rattle.respct.specs.Answers.{IsUntouched, IsNoLife, IsOnlyLoaded, IsNoScript, TookTooMuch, IsUnlessStarved, IsDecided, LeadsCheckTo, status_in};

use crate::answer::PlainAnswer;
use crate::checking::check;
use crate::drilling::drill;
use crate::leading::lead;
use crate::status::Status;
use byte_ports::{Images, Sink, Source};
use line_memory::Memory;
use power_cut::ImageFault;
use program_words::{Form, form_of};
use script_text::ScriptFault;
use std::alloc::Global;

/// The program: does what the words say, and answers how it ended.
///
/// `words` are those after the program's name: `start`, `resume` or `check`, with `--image NAME` or `--image=NAME` where the image is not to be
/// `respct.image`; or `drill` and a number of 64 bits. Of a start and a resume the script is read from `script`, the image of the life saved
/// in `images`, and then the report written to `report`. A resume loads the image that `images` has under that name before, and goes on from
/// it. A check loads the image, and writes the text of the state that it recovers to to `report`. A drill lives the nine lives of its number,
/// and writes the text of their summary to `report`; it uses neither `script` nor `images`. `memory` is handed in empty, and is what the life
/// left, or the last one of a drill, or empty where no life began or memory ran out before the life was told. Where memory runs out in the
/// lives of a drill, it is empty or what one of them left.
pub fn respct<R: AllocGlobal, S: Source, G: Images, W: Sink>(
    rt: &R,
    words: &[String],
    script: &mut S,
    images: &mut G,
    report: &mut W,
    memory: &mut Memory,
) -> Status
    requires { memory.old ≡ [] }

    // 0: a life was led to its end, its image is saved, and its whole report was appended; or of a check, the image under the name is lawful,
    // the text of the state that it recovers to was appended, and nothing else was done; or of a drill, its nine lives were lived, the text of
    // their summary was appended, and memory is what the last one left.
    ensures finished { result ≡ Finished → ((led : Led) × AskFor led.life (map string_bytes words.now) led.name
        × IsLed (S.left script.old) (S.left script.new) (G.kept images.old) memory.new led
        × HasSaved (G.kept images.old) (G.kept images.new) memory.new led
        × Appended (W.held report.old) (W.held report.new) (report_bytes led.report) × (led.report.outcome ≡ ends.Finished))
        ⊎ (((name : List ℕ) × IsCheck (map string_bytes words.now) name × HasChecked (G.kept images.old) name (W.held report.old) (W.held report.new) × IsNoLife (S.left script.old) (S.left script.new) (G.kept images.old) (G.kept images.new) memory.new)
        ⊎ ((n : ℕ) × IsDrill (map string_bytes words.now) n × HasDrilled n memory.new (W.held report.old) (W.held report.new) × IsApart (S.left script.old) (S.left script.new) (G.kept images.old) (G.kept images.new))) }

    // 3: a life was led until it stalled, with each thread at its script's end or before a take of the empty queue, and one before a take; its
    // image is saved, and its whole report was appended.
    ensures stalled { result ≡ Stalled → (led : Led) × AskFor led.life (map string_bytes words.now) led.name
        × IsLed (S.left script.old) (S.left script.new) (G.kept images.old) memory.new led
        × HasSaved (G.kept images.old) (G.kept images.new) memory.new led
        × Appended (W.held report.old) (W.held report.new) (report_bytes led.report) × (led.report.outcome ≡ ends.Stalled) }

    // 4: the same of a life whose power was cut before its end.
    ensures cut { result ≡ Cut → (led : Led) × AskFor led.life (map string_bytes words.now) led.name
        × IsLed (S.left script.old) (S.left script.new) (G.kept images.old) memory.new led
        × HasSaved (G.kept images.old) (G.kept images.new) memory.new led
        × Appended (W.held report.old) (W.held report.new) (report_bytes led.report) × (led.report.outcome ≡ ends.Cut) }

    // 1: exactly where the words are of no form. Nothing was read, and nothing else was done.
    ensures usage { (result ≡ Usage) ↔ AreOfNoForm (map string_bytes words.now) }
    ensures unasked { result ≡ Usage → (S.left script.new ≡ S.left script.old)
        × IsUntouched (W.held report.old) (W.held report.new) (G.kept images.old) (G.kept images.new) memory.new }

    // 2: the source had bytes that are refused for this fault, and all of them were read. Nothing else was done.
    ensures script { (f : ScriptFault) → result ≡ Script f → IsNoScript (S.left script.old) (S.left script.new) f
        × IsUntouched (W.held report.old) (W.held report.new) (G.kept images.old) (G.kept images.new) memory.new }

    // 7: the source failed, some of its bytes were taken, and nothing else was done.
    ensures unread { result ≡ ReadFault → Rose (S.count script.old) (S.count script.new) × TookSome (S.left script.old) (S.left script.new)
        × IsUntouched (W.held report.old) (W.held report.new) (G.kept images.old) (G.kept images.new) memory.new }

    // 12: more bytes than a script may have were taken, and nothing else was done.
    ensures too_long { result ≡ TooLong → TookTooMuch (S.left script.old) (S.left script.new) × TookSome (S.left script.old) (S.left script.new)
        × IsUntouched (W.held report.old) (W.held report.new) (G.kept images.old) (G.kept images.new) memory.new }

    // 5: what the store keeps under the name is no lawful image, and this is its first fault. Nothing was done but loading it, which a resume
    // does behind reading its script.
    ensures image { (f : ImageFault) → result ≡ Image f → (name : List ℕ) × IsFaulty (G.kept images.old) name f
        × IsOnlyLoaded (map string_bytes words.now) name (S.left script.old) (S.left script.new) (W.held report.old) (W.held report.new) (G.kept images.old) (G.kept images.new) memory.new }

    // 6: of a resume, the image under the name is lawful, and this is its first misfit with the script that was read. Nothing else was done.
    ensures misfit { (m : FirstMisfit) → result ≡ Misfit m → (name : List ℕ) × IsResume (map string_bytes words.now) name
        × ((p : Program) × HasRead (S.left script.old) (S.left script.new) p × IsMisfit (G.kept images.old) name p m)
        × IsUntouched (W.held report.old) (W.held report.new) (G.kept images.old) (G.kept images.new) memory.new }

    // 10: the store keeps nothing under the name. Nothing was done but looking for it, which a resume does behind reading its script.
    ensures missing { result ≡ NoImage → (name : List ℕ) × Finds (G.kept images.old) name None
        × IsOnlyLoaded (map string_bytes words.now) name (S.left script.old) (S.left script.new) (W.held report.old) (W.held report.new) (G.kept images.old) (G.kept images.new) memory.new }

    // 9: the image store failed: after a life was led, so that what is under the image's name is open, and nothing was written; or at a load,
    // and nothing was done but that a resume had read its script.
    ensures unsaved { result ≡ StoreFault → Rose (G.count images.old) (G.count images.new)
        × (((led : Led) × AskFor led.life (map string_bytes words.now) led.name
        × IsLed (S.left script.old) (S.left script.new) (G.kept images.old) memory.new led
        × OthersSame (G.kept images.old) (G.kept images.new) led.name × (W.held report.new ≡ W.held report.old))
        ⊎ ((name : List ℕ) × IsOnlyLoaded (map string_bytes words.now) name (S.left script.old) (S.left script.new) (W.held report.old) (W.held report.new) (G.kept images.old) (G.kept images.new) memory.new)) }

    // 8: the sink failed: after a life was led and its image saved, and a first part of its report was appended; or of a check, and a first part of
    // the text of the state was appended; or of a drill, and a first part of the text of its summary was.
    ensures unwritten { result ≡ WriteFault → Rose (W.count report.old) (W.count report.new)
        × (((led : Led) × AskFor led.life (map string_bytes words.now) led.name
        × IsLed (S.left script.old) (S.left script.new) (G.kept images.old) memory.new led
        × HasSaved (G.kept images.old) (G.kept images.new) memory.new led
        × AppendedSome (W.held report.old) (W.held report.new) (report_bytes led.report))
        ⊎ (((name : List ℕ) × IsCheck (map string_bytes words.now) name × HasCheckedSome (G.kept images.old) name (W.held report.old) (W.held report.new) × IsNoLife (S.left script.old) (S.left script.new) (G.kept images.old) (G.kept images.new) memory.new)
        ⊎ ((n : ℕ) × IsDrill (map string_bytes words.now) n × HasDrilledSome n memory.new (W.held report.old) (W.held report.new) × IsApart (S.left script.old) (S.left script.new) (G.kept images.old) (G.kept images.new)))) }

    // 11: memory ran out. No life is told and nothing was done but that some bytes were taken; or a life was led, what is under its image's
    // name is open, and a first part of its report was appended; or a first part of the text of the state that a check found was appended; or of
    // a drill, in its lives, and nothing was appended, or behind them, and a first part of the text of their summary was.
    ensures starved { result ≡ OutOfMemory
        → (TookSome (S.left script.old) (S.left script.new) × IsUntouched (W.held report.old) (W.held report.new) (G.kept images.old) (G.kept images.new) memory.new)
        ⊎ (((led : Led) × AskFor led.life (map string_bytes words.now) led.name
        × IsLed (S.left script.old) (S.left script.new) (G.kept images.old) memory.new led
        × OthersSame (G.kept images.old) (G.kept images.new) led.name
        × AppendedSome (W.held report.old) (W.held report.new) (report_bytes led.report))
        ⊎ (((name : List ℕ) × IsCheck (map string_bytes words.now) name × HasCheckedSome (G.kept images.old) name (W.held report.old) (W.held report.new) × IsNoLife (S.left script.old) (S.left script.new) (G.kept images.old) (G.kept images.new) memory.new)
        ⊎ ((n : ℕ) × IsDrill (map string_bytes words.now) n × IsDrillStarved n memory.new (W.held report.old) (W.held report.new) × IsApart (S.left script.old) (S.left script.new) (G.kept images.old) (G.kept images.new)))) }

    // Where nothing outside fails, the source's bytes decide on the status of a start, those and what is kept under the name on that of a resume,
    // and what is kept under the name on that of a check.
    ensures complete { (life : Life) (name : List ℕ) → AskFor life (map string_bytes words.now) name
        → (Rose (S.count script.old) (S.count script.new) → ⊥)
        → (Rose (G.count images.old) (G.count images.new) → ⊥)
        → (Rose (W.count report.old) (W.count report.new) → ⊥)
        → (bytes : List ℕ) → S.left script.old ≡ Some bytes → IsDecided life (G.kept images.old) name bytes result }
    // And where the turns of its script are enough, a life is not cut; one without a take is not stalled either.
    ensures in_time { (life : Life) (name : List ℕ) → AskFor life (map string_bytes words.now) name
        → (bytes : List ℕ) → S.left script.old ≡ Some bytes → (p : Program) → IsBuiltText bytes p → IsInTime life p result }
    ensures judged { (name : List ℕ) → IsCheck (map string_bytes words.now) name
        → (Rose (G.count images.old) (G.count images.new) → ⊥)
        → (Rose (W.count report.old) (W.count report.new) → ⊥)
        → (named : Named) → G.kept images.old ≡ Some named → LeadsCheckTo (get named name) result }
    // A drill has no other status than that its text is written, or that the sink failed, or that memory ran out.
    ensures drilled { (n : ℕ) → IsDrill (map string_bytes words.now) n
        → ((result ≡ WriteFault) × Rose (W.count report.old) (W.count report.new)) ⊎ IsUnlessStarved Finished result }
{
    match respct_plain(rt.alloc(), words, script, images, report, memory) {
        PlainAnswer::Ended(status) => status,
    }
}

/// The part of the program that starts no thread and always returns.
pub fn respct_plain<S: Source, G: Images, W: Sink>(
    alloc: Global,
    words: &[String],
    script: &mut S,
    images: &mut G,
    report: &mut W,
    memory: &mut Memory,
) -> PlainAnswer
    requires { memory.old ≡ [] }

    // 0: a life was led to its end, its image is saved, and its whole report was appended; or of a check, the image under the name is lawful,
    // the text of the state that it recovers to was appended, and nothing else was done; or of a drill, its nine lives were lived, the text of
    // their summary was appended, and memory is what the last one left.
    ensures finished { result ≡ Ended Finished → ((led : Led) × AskFor led.life (map string_bytes words.now) led.name
        × IsLed (S.left script.old) (S.left script.new) (G.kept images.old) memory.new led
        × HasSaved (G.kept images.old) (G.kept images.new) memory.new led
        × Appended (W.held report.old) (W.held report.new) (report_bytes led.report) × (led.report.outcome ≡ ends.Finished))
        ⊎ (((name : List ℕ) × IsCheck (map string_bytes words.now) name × HasChecked (G.kept images.old) name (W.held report.old) (W.held report.new) × IsNoLife (S.left script.old) (S.left script.new) (G.kept images.old) (G.kept images.new) memory.new)
        ⊎ ((n : ℕ) × IsDrill (map string_bytes words.now) n × HasDrilled n memory.new (W.held report.old) (W.held report.new) × IsApart (S.left script.old) (S.left script.new) (G.kept images.old) (G.kept images.new))) }

    // 3: a life was led until it stalled, with each thread at its script's end or before a take of the empty queue, and one before a take; its
    // image is saved, and its whole report was appended.
    ensures stalled { result ≡ Ended Stalled → (led : Led) × AskFor led.life (map string_bytes words.now) led.name
        × IsLed (S.left script.old) (S.left script.new) (G.kept images.old) memory.new led
        × HasSaved (G.kept images.old) (G.kept images.new) memory.new led
        × Appended (W.held report.old) (W.held report.new) (report_bytes led.report) × (led.report.outcome ≡ ends.Stalled) }

    // 4: the same of a life whose power was cut before its end.
    ensures cut { result ≡ Ended Cut → (led : Led) × AskFor led.life (map string_bytes words.now) led.name
        × IsLed (S.left script.old) (S.left script.new) (G.kept images.old) memory.new led
        × HasSaved (G.kept images.old) (G.kept images.new) memory.new led
        × Appended (W.held report.old) (W.held report.new) (report_bytes led.report) × (led.report.outcome ≡ ends.Cut) }

    // 1: exactly where the words are of no form. Nothing was read, and nothing else was done.
    ensures usage { (result ≡ Ended Usage) ↔ AreOfNoForm (map string_bytes words.now) }
    ensures unasked { result ≡ Ended Usage → (S.left script.new ≡ S.left script.old)
        × IsUntouched (W.held report.old) (W.held report.new) (G.kept images.old) (G.kept images.new) memory.new }

    // 2: the source had bytes that are refused for this fault, and all of them were read. Nothing else was done.
    ensures script { (f : ScriptFault) → result ≡ Ended (Script f) → IsNoScript (S.left script.old) (S.left script.new) f
        × IsUntouched (W.held report.old) (W.held report.new) (G.kept images.old) (G.kept images.new) memory.new }

    // 7: the source failed, some of its bytes were taken, and nothing else was done.
    ensures unread { result ≡ Ended ReadFault → Rose (S.count script.old) (S.count script.new) × TookSome (S.left script.old) (S.left script.new)
        × IsUntouched (W.held report.old) (W.held report.new) (G.kept images.old) (G.kept images.new) memory.new }

    // 12: more bytes than a script may have were taken, and nothing else was done.
    ensures too_long { result ≡ Ended TooLong → TookTooMuch (S.left script.old) (S.left script.new) × TookSome (S.left script.old) (S.left script.new)
        × IsUntouched (W.held report.old) (W.held report.new) (G.kept images.old) (G.kept images.new) memory.new }

    // 5: what the store keeps under the name is no lawful image, and this is its first fault. Nothing was done but loading it, which a resume
    // does behind reading its script.
    ensures image { (f : ImageFault) → result ≡ Ended (Image f) → (name : List ℕ) × IsFaulty (G.kept images.old) name f
        × IsOnlyLoaded (map string_bytes words.now) name (S.left script.old) (S.left script.new) (W.held report.old) (W.held report.new) (G.kept images.old) (G.kept images.new) memory.new }

    // 6: of a resume, the image under the name is lawful, and this is its first misfit with the script that was read. Nothing else was done.
    ensures misfit { (m : FirstMisfit) → result ≡ Ended (Misfit m) → (name : List ℕ) × IsResume (map string_bytes words.now) name
        × ((p : Program) × HasRead (S.left script.old) (S.left script.new) p × IsMisfit (G.kept images.old) name p m)
        × IsUntouched (W.held report.old) (W.held report.new) (G.kept images.old) (G.kept images.new) memory.new }

    // 10: the store keeps nothing under the name. Nothing was done but looking for it, which a resume does behind reading its script.
    ensures missing { result ≡ Ended NoImage → (name : List ℕ) × Finds (G.kept images.old) name None
        × IsOnlyLoaded (map string_bytes words.now) name (S.left script.old) (S.left script.new) (W.held report.old) (W.held report.new) (G.kept images.old) (G.kept images.new) memory.new }

    // 9: the image store failed: after a life was led, so that what is under the image's name is open, and nothing was written; or at a load,
    // and nothing was done but that a resume had read its script.
    ensures unsaved { result ≡ Ended StoreFault → Rose (G.count images.old) (G.count images.new)
        × (((led : Led) × AskFor led.life (map string_bytes words.now) led.name
        × IsLed (S.left script.old) (S.left script.new) (G.kept images.old) memory.new led
        × OthersSame (G.kept images.old) (G.kept images.new) led.name × (W.held report.new ≡ W.held report.old))
        ⊎ ((name : List ℕ) × IsOnlyLoaded (map string_bytes words.now) name (S.left script.old) (S.left script.new) (W.held report.old) (W.held report.new) (G.kept images.old) (G.kept images.new) memory.new)) }

    // 8: the sink failed: after a life was led and its image saved, and a first part of its report was appended; or of a check, and a first part of
    // the text of the state was appended; or of a drill, and a first part of the text of its summary was.
    ensures unwritten { result ≡ Ended WriteFault → Rose (W.count report.old) (W.count report.new)
        × (((led : Led) × AskFor led.life (map string_bytes words.now) led.name
        × IsLed (S.left script.old) (S.left script.new) (G.kept images.old) memory.new led
        × HasSaved (G.kept images.old) (G.kept images.new) memory.new led
        × AppendedSome (W.held report.old) (W.held report.new) (report_bytes led.report))
        ⊎ (((name : List ℕ) × IsCheck (map string_bytes words.now) name × HasCheckedSome (G.kept images.old) name (W.held report.old) (W.held report.new) × IsNoLife (S.left script.old) (S.left script.new) (G.kept images.old) (G.kept images.new) memory.new)
        ⊎ ((n : ℕ) × IsDrill (map string_bytes words.now) n × HasDrilledSome n memory.new (W.held report.old) (W.held report.new) × IsApart (S.left script.old) (S.left script.new) (G.kept images.old) (G.kept images.new)))) }

    // 11: memory ran out. No life is told and nothing was done but that some bytes were taken; or a life was led, what is under its image's
    // name is open, and a first part of its report was appended; or a first part of the text of the state that a check found was appended; or of
    // a drill, in its lives, and nothing was appended, or behind them, and a first part of the text of their summary was.
    ensures starved { result ≡ Ended OutOfMemory
        → (TookSome (S.left script.old) (S.left script.new) × IsUntouched (W.held report.old) (W.held report.new) (G.kept images.old) (G.kept images.new) memory.new)
        ⊎ (((led : Led) × AskFor led.life (map string_bytes words.now) led.name
        × IsLed (S.left script.old) (S.left script.new) (G.kept images.old) memory.new led
        × OthersSame (G.kept images.old) (G.kept images.new) led.name
        × AppendedSome (W.held report.old) (W.held report.new) (report_bytes led.report))
        ⊎ (((name : List ℕ) × IsCheck (map string_bytes words.now) name × HasCheckedSome (G.kept images.old) name (W.held report.old) (W.held report.new) × IsNoLife (S.left script.old) (S.left script.new) (G.kept images.old) (G.kept images.new) memory.new)
        ⊎ ((n : ℕ) × IsDrill (map string_bytes words.now) n × IsDrillStarved n memory.new (W.held report.old) (W.held report.new) × IsApart (S.left script.old) (S.left script.new) (G.kept images.old) (G.kept images.new)))) }

    // Where nothing outside fails, the source's bytes decide on the status of a start, those and what is kept under the name on that of a resume,
    // and what is kept under the name on that of a check.
    ensures complete { (life : Life) (name : List ℕ) → AskFor life (map string_bytes words.now) name
        → (Rose (S.count script.old) (S.count script.new) → ⊥)
        → (Rose (G.count images.old) (G.count images.new) → ⊥)
        → (Rose (W.count report.old) (W.count report.new) → ⊥)
        → (bytes : List ℕ) → S.left script.old ≡ Some bytes → IsDecided life (G.kept images.old) name bytes (status_in result) }
    // And where the turns of its script are enough, a life is not cut; one without a take is not stalled either.
    ensures in_time { (life : Life) (name : List ℕ) → AskFor life (map string_bytes words.now) name
        → (bytes : List ℕ) → S.left script.old ≡ Some bytes → (p : Program) → IsBuiltText bytes p → IsInTime life p (status_in result) }
    ensures judged { (name : List ℕ) → IsCheck (map string_bytes words.now) name
        → (Rose (G.count images.old) (G.count images.new) → ⊥)
        → (Rose (W.count report.old) (W.count report.new) → ⊥)
        → (named : Named) → G.kept images.old ≡ Some named → LeadsCheckTo (get named name) (status_in result) }
    // A drill has no other status than that its text is written, or that the sink failed, or that memory ran out.
    ensures drilled { (n : ℕ) → IsDrill (map string_bytes words.now) n
        → ((status_in result ≡ WriteFault) × Rose (W.count report.old) (W.count report.new)) ⊎ IsUnlessStarved Finished (status_in result) }
{
    let form = match form_of(alloc, words) {
        Ok(form) => form,
        Err(_) => return PlainAnswer::Ended(Status::OutOfMemory),
    };
    match form {
        Some(Form::Lead { life, image }) => {
            let ended = lead(alloc, life, script, images, image, report, memory);
            PlainAnswer::Ended(Status::of_life(ended))
        }
        Some(Form::Check { image }) => {
            let ended = check(alloc, images, image, report);
            PlainAnswer::Ended(Status::of_check(ended))
        }
        Some(Form::Drill { number }) => {
            let ended = drill(alloc, number, report, memory);
            PlainAnswer::Ended(Status::of_drill(ended))
        }
        None => PlainAnswer::Ended(Status::Usage),
    }
}
