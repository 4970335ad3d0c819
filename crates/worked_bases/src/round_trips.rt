//! What no clause says: what was read is written again byte for byte.

use line_lexer::Lexer;
use parity_lines::Problem;
use parity_text::{
    read_answer, read_end, read_head, read_problem, read_set, write_answer, write_problem,
    write_set,
};
use small_fields::{F2, FieldName};

#[test]
fn what_was_read_is_written(rt: HostRuntime) {
    let alloc = rt.alloc();
    let text =
        b"parity 1\nfield 2\ndimension 4\nlines 2\nline 1 0 0 0 | 0 1 0 0\nline 0 0 1 0 | 0 0 0 1\nanswer 1\nsize 2\nset 1 2\nkernel 0\nparts 1\npart 1 2\nend\n";
    let mut lexer = Lexer::new(text);
    assert_eq!(rt; read_head(&mut lexer), Ok(FieldName::Two));
    let problem: Problem<F2> = read_problem(alloc, &mut lexer).expect(&rt, "a problem");
    let answer = read_answer(alloc, &mut lexer, &problem).expect(&rt, "an answer");
    assert_eq!(rt; read_end(&mut lexer), Ok(()));
    let mut out = Vec::new(alloc);
    assert_eq!(rt; write_problem(&mut out, &problem), Ok(()));
    assert_eq!(rt; write_answer(&mut out, &answer), Ok(()));
    assert_eq!(rt; out.as_slice(), text.as_slice());

    let text = b"choice 1\nsize 2\nset 10 2048\nend\n";
    let set = read_set(alloc, &mut Lexer::new(text), 2048).expect(&rt, "a choice");
    let mut out = Vec::new(alloc);
    assert_eq!(rt; write_set(&mut out, &set), Ok(()));
    assert_eq!(rt; out.as_slice(), text.as_slice());
}
