//! What is assumed about a file of the operating system.
//!
//! The assumption is that such a file obeys the crash model. std promises nothing about a file's bytes, so nobody can prove this.
//! Nobody must be able to prove the opposite either. So the definition of a file's content (`system_content`) is hidden.
//! `silt_device` uses one law about it to prove what its calls do. A crate that does not list this one cannot name the law.
//! To such a crate the content is any content. So each theorem about a file that behaves holds for a file of the system, if that
//! file behaves. No other crate lists this one.
#![tactic(auto)]
