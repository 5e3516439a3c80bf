//! Pieces of YAML files as people keep them. In a piece, `@w` stands for a word, `@n` for a number,
//! `@s` for a number that no other piece of its text has, and `@l` for the last such number again.

/// The words of the texts.
pub const WORDS: [&str; 32] = [
    "api",
    "auth",
    "backend",
    "billing",
    "cache",
    "catalog",
    "checkout",
    "cluster",
    "cron",
    "daemon",
    "dashboard",
    "database",
    "delivery",
    "events",
    "frontend",
    "gateway",
    "images",
    "ingest",
    "jobs",
    "ledger",
    "mailer",
    "metrics",
    "orders",
    "payments",
    "proxy",
    "queue",
    "reports",
    "search",
    "sessions",
    "storage",
    "users",
    "worker",
];

/// Kubernetes objects, each a document.
pub const MANIFESTS: [&str; 6] = [
    "---
apiVersion: v1
kind: ConfigMap
metadata:
  name: @w-@w-@s
  namespace: @w
  labels:
    app.kubernetes.io/name: @w
    app.kubernetes.io/part-of: @w-@n
data:
  LOG_LEVEL: \"info\"
  LISTEN: \"0.0.0.0:@n\"
  server.conf: |
    listen @n
    # the @w answers for @w
    upstream http://@w-@n.@w.svc:@n/
    timeout @n
",
    "---
apiVersion: apps/v1
kind: Deployment
metadata:
  name: @w-@s
  namespace: @w
  labels: {app: @w, tier: @w}
spec:
  replicas: @n
  selector:
    matchLabels:
      app: @w
  template:
    metadata:
      labels:
        app: @w
      annotations:
        prometheus.io/scrape: \"true\"
        prometheus.io/port: \"@n\"
    spec:
      containers:
        - name: @w
          image: registry.example.com/@w/@w:1.@n.@n
          args: [\"--listen\", \"0.0.0.0:@n\", \"--log\", \"@w\"]
          ports:
            - name: http
              containerPort: @n
              protocol: TCP
          env:
            - name: DATABASE_URL
              valueFrom:
                secretKeyRef:
                  name: @w-@n
                  key: url
            - name: REGION
              value: eu-west-@n
          resources:
            requests:
              cpu: @nm
              memory: @nMi
            limits:
              memory: @nMi
          readinessProbe:
            httpGet:
              path: /health/@w
              port: http
            periodSeconds: @n
",
    "---
# Nach außen über den Eingang – @w
apiVersion: v1
kind: Service
metadata:
  name: @w-@s
  namespace: @w
spec:
  type: ClusterIP
  selector:
    app: @w
  ports:
    - name: http
      port: @n
      targetPort: http
    - name: metrics
      port: @n
      targetPort: @n
",
    "---
apiVersion: networking.k8s.io/v1
kind: Ingress
metadata:
  name: @w-@s
  annotations:
    nginx.ingress.kubernetes.io/proxy-body-size: @nm
    cert-manager.io/cluster-issuer: 'letsencrypt-@w'
spec:
  tls:
    - hosts: [@w.example.com, www.@w.example.com]
      secretName: @w-tls-@n
  rules:
    - host: @w.example.com
      http:
        paths:
          - path: /@w
            pathType: Prefix
            backend:
              service:
                name: @w-@n
                port: {number: @n}
",
    "---
apiVersion: batch/v1
kind: CronJob
metadata:
  name: @w-@w-@s
spec:
  schedule: \"@n 3 * * *\"  # each night
  concurrencyPolicy: Forbid
  jobTemplate:
    spec:
      template:
        spec:
          restartPolicy: OnFailure
          containers:
            - name: @w
              image: \"registry.example.com/@w:@n\"
              command:
                - /bin/sh
                - -c
                - >-
                  curl --fail --silent
                  http://@w.@w.svc:@n/run
                  && echo done @n
",
    "---
apiVersion: rbac.authorization.k8s.io/v1
kind: Role
metadata:
  name: @w-@s
  namespace: @w
rules:
  - apiGroups: [\"\"]
    resources: [\"pods\", \"services\", \"configmaps\"]
    verbs: [\"get\", \"list\", \"watch\"]
  - apiGroups:
      - apps
    resources:
      - deployments
      - statefulsets
    verbs:
      - get
      - update
    resourceNames: &names-@s
      - @w-@n
      - @w-@n
",
];

/// A Kubernetes object as a hurried hand leaves it.
pub const HURRIED_MANIFEST: &str = "---
apiVersion : v1
kind:  Service
metadata:
    name: @w-@s   
    labels: { app: @w,tier: @w }
    name: @w
spec:
  selector: {app: @w}
  headless: yes
  ports:
  - port: @n
    #the port of the @w
    targetPort: @n


  externalName: @w.@w.@w.example.com/a/path/that/nobody/wrapped/because/it/could/not/be/wrapped
";

/// The start of a document with many entries.
pub const HEAD: &str = "---
name: @w-@n
version: \"3.@n\"
services:
";

/// Entries of a mapping, as compose files and pipelines have them.
pub const ENTRIES: [&str; 4] = [
    "  @w-@s:
    image: registry.example.com/@w/@w:@n.@n
    ports: [\"@n:@n\", \"@n:@n\"]
    restart: always
",
    "  # the @w of the @w
  @w-@s:
    build: ./@w/@w
    environment:
      - LEVEL=@w
",
    "  @w-@s:
    command: @w --listen 0.0.0.0:@n --name '@w'
    depends_on: [@w, @w]
    deploy: {replicas: @n, mode: replicated}
",
    "  @w-@s:
    script: |
      make @w
      ./run @w --count @n
    timeout: @n
",
];

/// An entry as a hurried hand leaves it.
pub const HURRIED_ENTRY: &str = "  @w-@s :
    image:  registry.example.com/@w  
    ports: [ \"@n:@n\",\"@n:@n\" ]
    enabled: yes
";

/// Entries with one problem each, whose message names what was found.
pub const ENTRIES_WITH_PROBLEMS: [&str; 5] = [
    "  @w-@s:
    image: registry.example.com/@w/@w:@n.@n
    enabled: yes
    restart: always
",
    "  @w-@s:
    limit-@s: @n
    restart: always
    limit-@l: @n
",
    "  @w-@s:
    note: the @w and the @w of the @w are kept beside each other, as the @w asks for
    build: ./@w/@w
    restart: always
",
    "  @w-@s:
    environment: *@w-@n
    build: ./@w/@w
    restart: always
",
    "  @w-@s:
      build: ./@w/@w
      restart: always
",
];

/// A configuration by which the problems of these entries are warnings.
pub const WARNINGS: &str = "---
extends: default
rules:
  anchors: {level: warning}
  indentation: {level: warning}
  key-duplicates: {level: warning}
  line-length: {level: warning}
  truthy: {level: warning}
";

/// The start of a document of flow collections, which is written as JSON is.
pub const FLOW_HEAD: &str = "---
{\"source\": \"@w\", \"items\": [
";

/// The end of a document of flow collections.
pub const FLOW_END: &str = "  {}
]}
";

/// Entries of a flow sequence.
pub const FLOW_ENTRIES: [&str; 3] = [
    "{\"id\": @s, \"name\": \"@w @w\", \"size\": @n.5}",
    "[@n, @n, \"@w\", true, null]",
    "{\"key-@s\": {\"a\": [@n, {\"b\": \"@w\"}], \"c\": \"\\u00e9@w\"}}",
];
