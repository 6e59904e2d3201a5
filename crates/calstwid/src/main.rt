// The program: a run file from standard input, a line a job to standard output.
#![tactic(auto)]

fn main(rt: HostRuntime) {
    file_serving::serve_input(&mut rt.stdin(), &mut rt.stdout());
}
