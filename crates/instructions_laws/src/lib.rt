// The laws of decoding, in the words of the subject. Each function stands for the laws that it ensures.
#![tactic(auto)]

ghost use Rattle.instructions_laws.specs.Beginnings.{BeginningLaws};
ghost use Rattle.instructions_laws.specs.Defined as defined;
ghost use Rattle.instructions_laws.specs.Lengths as lengths;
ghost use Rattle.instructions_laws.specs.Named as named;

// The bytes that each page defines.
pub fn defined_bytes()
    ensures main { defined.MainPage }
    ensures cb { defined.CbPage }
    ensures ed { defined.EdPage }
    ensures indexed { defined.IndexedPage }
    ensures displaced { defined.IndexedCbPage }
    ensures all { defined.AllPages }
{}

// The length of each form.
pub fn lengths()
    ensures main { lengths.MainPage }
    ensures cb { lengths.CbPage }
    ensures ed { lengths.EdPage }
    ensures indexed { lengths.IndexedPage }
    ensures displaced { lengths.IndexedCbPage }
{}

// Each byte is the opcode of the form that it is decoded to.
pub fn opcodes()
    ensures main { named.MainPage }
    ensures cb { named.CbPage }
    ensures ed { named.EdPage }
    ensures indexed { named.IndexedPage }
    ensures displaced { named.IndexedCbPage }
{}

// What a run of bytes begins with.
pub fn beginnings()
    ensures { BeginningLaws }
{}
